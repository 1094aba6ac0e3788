// Lines of header and items that were judged good before: one look tells what a line is, and nothing is judged again.
#![tactic(auto)]

ghost use Rattle.std.specs.Prelude.{◌≡◌, drop};
ghost use Rattle.text.specs.Find.{line_at, first_from};
ghost use Rattle.text.specs.declared.LineAt.{LineAt};
ghost use Rattle.judge_line.specs.Judge.{is_close};
ghost use Rattle.line_judged.specs.Known.{Standing, HeaderOrEnd, Header, Named, is_byte, Stands};

// A whole line: its bytes end before `end`, and the next line starts at `next`.
#[derive(Drop)]
pub struct Whole {
    pub end: usize,
    pub next: usize,
}

// Where the name of a data header stands in its line.
#[derive(Drop)]
pub struct Name {
    pub from: usize,
    pub to: usize,
}

// The first byte b from position `at` on, where one is known to stand.
// No `for`: it would ask for the line's end at each byte, and `records canon` counted 19.7 instructions a byte then, on
// items of 10,000 bytes, and 16.3 so.
fn find(line: &[u8], at: usize, b: u8) -> usize
    requires { Stands b line.now at }
    ensures { first_from (is_byte b) at (drop at line.now) ≡ Some result }
{
    let mut i = at;
    loop {
        if line[i] == b {
            return i;
        }
        i += 1;
    }
}

// The line at a position where a whole one is known to start, so that there is no other answer. A plain search: these lines are short, and the walk keeps
// `text::line_at` to itself, inlined.
pub fn whole_line(s: &[u8], at: usize) -> Whole
    requires { Standing s.now at }
    ensures { line_at s.now at ≡ LineAt.Line result.end result.next }
{
    let k = find(s, at, b'\n');
    if k <= at {
        return Whole {
            end: k,
            next: k + 1,
        };
    }
    if s[k - 1] == b'\r' {
        return Whole {
            end: k - 1,
            next: k + 1,
        };
    }
    Whole {
        end: k,
        next: k + 1,
    }
}

// Whether a line that is a data header or a `$$$$` line is a `$$$$` line: the first byte tells.
pub fn is_end(line: &[u8]) -> bool
    requires { HeaderOrEnd line.now }
    ensures { result ≡ is_close line.now }
{
    if text::column(line, 1) == b'$' {
        return true;
    }
    false
}

// The name of a data header: it stands between the first `<` and the `>` after it.
pub fn name_of(line: &[u8]) -> Name
    requires { Header line.now }
    ensures { Named line.now result.from result.to }
{
    let open = find(line, 1, b'<');
    let from = open + 1;
    Name {
        from,
        to: find(line, from, b'>'),
    }
}
