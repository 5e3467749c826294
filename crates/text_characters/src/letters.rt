// Letters and digits, one by one.
ghost use Rattle.std.specs.Prelude.{◌≡◌, eqb};
ghost use Rattle.language.specs.Characters.{folded, digit_worth, within};

// Whether a byte is one of those from lo to hi.
pub fn is_within(lo: u8, b: u8, hi: u8) -> bool
    ensures { result ≡ within lo b hi }
{
    lo <= b && b <= hi
}

// The capital of a letter, and any other byte as it is.
#[tactic(auto, using(std::proofs::lemmas::Bool::Decides::nat_tests), unfolding(language::specs::Characters::folded))]
pub fn fold(b: u8) -> u8
    ensures { result ≡ folded b }
{
    match b {
        b'a'..=b'z' => b - 32,
        _ => b,
    }
}

// Whether two bytes are the same but for the case of a letter, which keeps its low bits: by these most that differ are told apart.
pub fn alike(x: u8, y: u8) -> bool
    ensures { result ≡ eqb (folded x) (folded y) }
{
    x == y || x % 32 == y % 32 && fold(x) == fold(y)
}

// What a digit is worth in a base of up to 16, and 16 where it is none.
#[tactic(auto, using(std::proofs::lemmas::Bool::Decides::nat_tests), unfolding(language::specs::Characters::digit_worth))]
pub fn digit_worth(b: u8) -> u8
    ensures { result ≡ digit_worth b }
{
    match b {
        b'0'..=b'9' => b - b'0',
        b'A'..=b'F' => b - b'A' + 10,
        b'a'..=b'f' => b - b'a' + 10,
        _ => 16,
    }
}
