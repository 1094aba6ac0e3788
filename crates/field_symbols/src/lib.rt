// The symbols of atoms and their numbers.
#![tactic(auto)]

ghost use Rattle.std.specs.Prelude.{◌≡◌, ◌+◌, ◌*◌, ◌≤◌};
ghost use Rattle.text.specs.Columns.{columns};
ghost use Rattle.field_symbols.specs.Read.{symbol_in};
ghost use Rattle.field_symbols.specs.Codes.{codes, number_of};
ghost use Rattle.field_symbols.specs.Places.{pick, rows, entries, carbon_entry};

// How many symbols there are.
pub const SYMBOLS: u32 = 122;

// Where the row of a first letter starts, by the letter's number in the alphabet; the star stands where J would.
#[tactic(auto, unfolding(crate::specs::Places::pick, crate::specs::Places::rows))]
fn row_at(letter: u32) -> u32
    ensures { result ≡ pick 0 letter rows }
{
    match letter {
        0 => 0,
        1 => 23, // A
        2 => 100, // B
        3 => 0, // C
        4 => 30, // D
        5 => 95, // E
        6 => 69, // F
        7 => 122, // G
        8 => 88, // H
        9 => 92, // I
        10 => 51, // *
        11 => 99, // K
        12 => 103, // L
        13 => 82, // M
        14 => 75, // N
        15 => 10, // O
        16 => 7, // P
        17 => 3, // Q
        18 => 32, // R
        19 => 45, // S
        20 => 59, // T
        21 => 24, // U
        22 => 2, // V
        23 => 31, // W
        24 => 11, // X
        25 => 120, // Y
        26 => 52, // Z
        27 => 0,
        28 => 0,
        29 => 0,
        30 => 0,
        31 => 0,
        _ => 0,
    }
}

// The symbol at a place: its number, and above that its three bytes, the first lowest. Where none stands, carbon.
#[tactic(auto, unfolding(crate::specs::Places::pick, crate::specs::Places::rows, crate::specs::Places::place_of, crate::specs::Places::entries, crate::specs::Places::entries_from, crate::specs::Codes::codes, text::specs::Columns::columns_for))]
fn entry_at(place: u32) -> u32
    ensures { result ≡ pick carbon_entry place entries }
{
    match place {
        88 => 0x20204801, // H
        93 => 0x20654802, // He
        112 => 0x20694c03, // Li
        105 => 0x20654204, // Be
        100 => 0x20204205, // B
        0 => 0x20204306, // C
        75 => 0x20204e07, // N
        10 => 0x20204f08, // O
        69 => 0x20204609, // F
        80 => 0x20654e0a, // Ne
        76 => 0x20614e0b, // Na
        89 => 0x20674d0c, // Mg
        35 => 0x206c410d, // Al
        54 => 0x2069530e, // Si
        7 => 0x2020500f, // P
        45 => 0x20205310, // S
        12 => 0x206c4311, // Cl
        41 => 0x20724112, // Ar
        99 => 0x20204b13, // K
        1 => 0x20614314, // Ca
        48 => 0x20635315, // Sc
        68 => 0x20695416, // Ti
        2 => 0x20205617, // V
        18 => 0x20724318, // Cr
        96 => 0x206e4d19, // Mn
        74 => 0x2065461a, // Fe
        15 => 0x206f431b, // Co
        84 => 0x20694e1c, // Ni
        21 => 0x2075431d, // Cu
        66 => 0x206e5a1e, // Zn
        123 => 0x2061471f, // Ga
        127 => 0x20654720, // Ge
        42 => 0x20734121, // As
        50 => 0x20655322, // Se
        118 => 0x20724223, // Br
        117 => 0x20724b24, // Kr
        34 => 0x20625225, // Rb
        63 => 0x20725326, // Sr
        120 => 0x20205927, // Y
        70 => 0x20725a28, // Zr
        77 => 0x20624e29, // Nb
        97 => 0x206f4d2a, // Mo
        62 => 0x2063542b, // Tc
        53 => 0x2075522c, // Ru
        40 => 0x2068522d, // Rh
        11 => 0x2064502e, // Pd
        30 => 0x2067412f, // Ag
        4 => 0x20644330, // Cd
        106 => 0x206e4931, // In
        59 => 0x206e5332, // Sn
        47 => 0x20625333, // Sb
        64 => 0x20655434, // Te
        92 => 0x20204935, // I
        16 => 0x20655836, // Xe
        19 => 0x20734337, // Cs
        101 => 0x20614238, // Ba
        104 => 0x20614c39, // La
        5 => 0x2065433a, // Ce
        25 => 0x2072503b, // Pr
        79 => 0x20644e3c, // Nd
        20 => 0x206d503d, // Pm
        58 => 0x206d533e, // Sm
        116 => 0x2075453f, // Eu
        126 => 0x20644740, // Gd
        61 => 0x20625441, // Tb
        55 => 0x20794442, // Dy
        103 => 0x206f4843, // Ho
        113 => 0x20724544, // Er
        72 => 0x206d5445, // Tm
        122 => 0x20625946, // Yb
        124 => 0x20754c47, // Lu
        94 => 0x20664848, // Hf
        60 => 0x20615449, // Ta
        31 => 0x2020574a, // W
        37 => 0x2065524b, // Re
        29 => 0x20734f4c, // Os
        110 => 0x2072494d, // Ir
        27 => 0x2074504e, // Pt
        44 => 0x2075414f, // Au
        95 => 0x20674850, // Hg
        71 => 0x206c5451, // Tl
        9 => 0x20625052, // Pb
        109 => 0x20694253, // Bi
        22 => 0x206f5054, // Po
        43 => 0x20744155, // At
        46 => 0x206e5256, // Rn
        87 => 0x20724657, // Fr
        33 => 0x20615258, // Ra
        26 => 0x20634159, // Ac
        67 => 0x2068545a, // Th
        8 => 0x2061505b, // Pa
        24 => 0x2020555c, // U
        91 => 0x20704e5d, // Np
        28 => 0x2075505e, // Pu
        36 => 0x206d415f, // Am
        13 => 0x206d4360, // Cm
        111 => 0x206b4261, // Bk
        6 => 0x20664362, // Cf
        114 => 0x20734563, // Es
        82 => 0x206d4664, // Fm
        86 => 0x20644d65, // Md
        90 => 0x206f4e66, // No
        121 => 0x20724c67, // Lr
        38 => 0x20665268, // Rf
        32 => 0x20624469, // Db
        52 => 0x2067536a, // Sg
        108 => 0x2068426b, // Bh
        107 => 0x2073486c, // Hs
        102 => 0x20744d6d, // Mt
        49 => 0x2073446e, // Ds
        39 => 0x2067526f, // Rg
        14 => 0x206e4370, // Cn
        83 => 0x20684e71, // Nh
        81 => 0x206c4672, // Fl
        85 => 0x20634d73, // Mc
        125 => 0x20764c74, // Lv
        78 => 0x20735475, // Ts
        17 => 0x20674f76, // Og
        23 => 0x20204177, // A
        3 => 0x20205178, // Q
        51 => 0x20202a79, // *
        119 => 0x20504c7a, // LP
        _ => 0x20204306,
    }
}

// The first letter tells the row, the second the place in it; what stands there has the last word.
fn any_symbol(code: u32) -> Option<u32>
    ensures { result ≡ number_of code 1 codes }
{
    let row = row_at(code % 32);
    let entry = entry_at(row + code / 256 % 32);
    if entry / 256 == code {
        return Some(entry % 256);
    }
    None
}

// The number of a code, the usual ones first.
fn symbol_of(code: u32) -> Option<u32>
    ensures { result ≡ number_of code 1 codes }
{
    if code == 0x202043 {
        return Some(6);
    }
    if code == 0x20204e {
        return Some(7);
    }
    if code == 0x20204f {
        return Some(8);
    }
    any_symbol(code)
}

fn joined(a: u8, b: u8, c: u8) -> u32
    ensures { result ≡ a + b * 256 + c * 65536 }
{
    (a as u32) + (b as u32) * 256 + (c as u32) * 65536
}

// The code in columns i to i + 2. Where the line has all three, its length is asked once.
fn code_in(line: &[u8], i: usize) -> u32
    requires { (1 ≤ i) × (i ≤ 1000) }
    ensures { number_of result 1 codes ≡ symbol_in (columns line.now i (i + 2)) }
{
    if i + 2 <= line.len() {
        let a = text::inner_column(line, i);
        let b = text::inner_column(line, i + 1);
        let c = text::inner_column(line, i + 2);
        return joined(a, b, c);
    }
    let a = text::column(line, i);
    let b = text::column(line, i + 1);
    let c = text::column(line, i + 2);
    joined(a, b, c)
}

// The symbol in columns i to i + 2.
pub fn symbol(line: &[u8], i: usize) -> Option<u32>
    requires { (1 ≤ i) × (i ≤ 1000) }
    ensures { result ≡ symbol_in (columns line.now i (i + 2)) }
{
    symbol_of(code_in(line, i))
}
