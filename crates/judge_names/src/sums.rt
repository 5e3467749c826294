// A number for each name, by which most names are told apart.
ghost use Rattle.std.specs.Prelude.{◌≡◌, ◌<◌};
ghost use Rattle.judge_names.specs.Sums.{sum_of};

// The sum of a name's bytes, each forty-five times the next, modulo 1,024: no two letters or digits lie so far apart, and names that begin alike have other sums.
pub fn sum(name: &[u8]) -> u16
    ensures { (result < 1024) × (result ≡ sum_of name.now) }
{
    let mut total: u16 = 0;
    for b in name {
        total = (total * 45 + *b as u16) % 1024;
    }
    total
}
