// Names match without regard to case.
ghost use Rattle.std.specs.Prelude.{map, ◌≡◌};
ghost use Rattle.language.specs.Characters.{folded};
ghost use Rattle.language.specs.Scan.{same};

use crate::letters;

// Whether two parts of a text are the same in capitals: their ends are compared first, since names that begin alike are common.
pub fn matches(a: &[u8], b: &[u8]) -> bool
    ensures { result ≡ same (map folded a.now) (map folded b.now) }
{
    if a.len() != b.len() {
        return false;
    }
    for i in (0..a.len()).rev() {
        if !letters::alike(a[i], b[i]) {
            return false;
        }
    }
    true
}
