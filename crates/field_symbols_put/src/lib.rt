// Element symbols, written in their columns.
#![tactic(auto)]

ghost use Rattle.std.specs.Prelude.{◌≡◌, ◌+◌, ◌*◌, ◌-◌, ◌≤◌, length, get_or};
ghost use Rattle.std.proofs.lemmas.List.Edits.{sets};
ghost use Rattle.field_symbols.specs.Symbol.{symbols_all};
ghost use Rattle.field_symbols.specs.Write.{symbol_text};
ghost use Rattle.field_symbols.specs.Codes.{codes};
ghost use Rattle.field_symbols.specs.Places.{pick, words};

// The first two bytes of four symbols in the order of their numbers, the first lowest.
#[tactic(auto, unfolding(field_symbols::specs::Places::pick, field_symbols::specs::Places::words, field_symbols::specs::Places::words_from, field_symbols::specs::Places::word_of, field_symbols::specs::Codes::codes, text::specs::Columns::columns_for))]
fn word_at(j: u32) -> u64
    ensures { result ≡ pick 0 j words }
{
    match j {
        0 => 0x6542694c65482048, // H He Li Be
        1 => 0x204f204e20432042, // B C N O
        2 => 0x674d614e654e2046, // F Ne Na Mg
        3 => 0x2053205069536c41, // Al Si P S
        4 => 0x6143204b72416c43, // Cl Ar K Ca
        5 => 0x7243205669546353, // Sc Ti V Cr
        6 => 0x694e6f4365466e4d, // Mn Fe Co Ni
        7 => 0x654761476e5a7543, // Cu Zn Ga Ge
        8 => 0x724b724265537341, // As Se Br Kr
        9 => 0x725a205972536252, // Rb Sr Y Zr
        10 => 0x755263546f4d624e, // Nb Mo Tc Ru
        11 => 0x6443674164506852, // Rh Pd Ag Cd
        12 => 0x655462536e536e49, // In Sn Sb Te
        13 => 0x6142734365582049, // I Xe Cs Ba
        14 => 0x644e72506543614c, // La Ce Pr Nd
        15 => 0x644775456d536d50, // Pm Sm Eu Gd
        16 => 0x72456f4879446254, // Tb Dy Ho Er
        17 => 0x6648754c62596d54, // Tm Yb Lu Hf
        18 => 0x734f655220576154, // Ta W Re Os
        19 => 0x6748754174507249, // Ir Pt Au Hg
        20 => 0x6f50694262506c54, // Tl Pb Bi Po
        21 => 0x615272466e527441, // At Rn Fr Ra
        22 => 0x2055615068546341, // Ac Th Pa U
        23 => 0x6d436d417550704e, // Np Pu Am Cm
        24 => 0x6d46734566436b42, // Bk Cf Es Fm
        25 => 0x6652724c6f4e644d, // Md No Lr Rf
        26 => 0x7348684267536244, // Db Sg Bh Hs
        27 => 0x6e4367527344744d, // Mt Ds Rg Cn
        28 => 0x764c634d6c46684e, // Nh Fl Mc Lv
        29 => 0x20512041674f7354, // Ts Og A Q
        30 => 0x00000000504c202a, // * LP
        _ => 0,
    }
}

// The first two bytes of symbol k.
fn letters_of(k: u32) -> u32
    requires { (1 ≤ k) × (k ≤ symbols_all) }
    ensures { result + 0x200000 ≡ get_or codes (k - 1) 0 }
{
    let i = k - 1;
    let word = word_at(i / 4);
    ((word >> (16 * (i % 4))) % 65536) as u32
}

// Writes the three columns of symbol k, the last of them a space.
pub fn put_symbol(out: &mut [u8], at: usize, k: u32)
    requires { (at + 3 ≤ length out.old) × ((1 ≤ k) × (k ≤ symbols_all)) }
    ensures { out.new ≡ sets out.old at (symbol_text k) }
{
    let letters = letters_of(k);
    out[at] = (letters % 256) as u8;
    out[at + 1] = (letters / 256) as u8;
    out[at + 2] = b' ';
}
