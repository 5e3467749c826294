// How an expression of a level begins.
ghost use Rattle.std.specs.Prelude.{◌≡◌};
ghost use Rattle.parse_levels.specs.Orders.{head_of, prefix_level, rank_after};

use crate::{Lead, Level, Rank};
use value_operators::operators;

// How an expression of a level begins, by the kind of its first word.
#[tactic(auto, using(std::proofs::lemmas::Bool::Decides::nat_tests), unfolding(crate::specs::Orders::head_of, about_grammar::specs::Following::among))]
pub fn head_of(level: Level, kind: u8) -> Lead
    ensures { result ≡ head_of level kind }
{
    let n = level as u8;
    if 5 <= n && kind == language::kinds::MINUS {
        return Lead::Complement;
    }
    if 3 <= n && operators::REDUCTION_SIGNS.contains(&kind) {
        return Lead::Reduction;
    }
    if 1 <= n && kind == language::kinds::DIFFERENCE {
        return Lead::Negation;
    }
    Lead::Plain
}

// What a prefix operator stands before.
pub fn prefixed(head: Lead) -> Level
    ensures { result ≡ prefix_level head }
{
    match head {
        Lead::Plain | Lead::Negation => Level::Term,
        Lead::Reduction => Level::Adjustment,
        Lead::Complement => Level::Chain,
    }
}

// The rank of the operators that may follow: a table beside the one above, since a rank is no level.
pub fn after(head: Lead) -> Rank
    ensures { result ≡ rank_after head }
{
    match head {
        Lead::Plain | Lead::Negation => Rank::Sum,
        Lead::Reduction => Rank::Con,
        Lead::Complement => Rank::And,
    }
}
