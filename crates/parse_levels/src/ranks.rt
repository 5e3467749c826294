// The operators behind an operand, by rank.
ghost use Rattle.std.specs.Prelude.{◌≡◌, ltb};
ghost use Rattle.about_grammar.specs.Following.{among};
ghost use Rattle.parse_levels.specs.Orders.{next_rank, operand_level, operators_of, rank_no, top_no};

use crate::{Level, Rank};
use value_operators::operators;

// Whether a kind is an operator of a rank.
#[tactic(auto, using(std::proofs::lemmas::Bool::Decides::nat_tests), unfolding(about_grammar::specs::Following::among))]
pub fn operates(rank: Rank, kind: u8) -> bool
    ensures { result ≡ among kind (operators_of rank) }
{
    match rank {
        Rank::Sum => operators::SUM_SIGNS.contains(&kind),
        Rank::Relation => operators::RELATION_SIGNS.contains(&kind),
        Rank::Cut => operators::CUT_WORDS.contains(&kind),
        Rank::Con => kind == language::kinds::CON,
        Rank::And => kind == language::kinds::STAR,
        Rank::Exclusive => kind == language::kinds::EXCLUSIVE,
        Rank::Or => kind == language::kinds::PLUS,
        Rank::Beyond => false,
    }
}

// The rank of the looser operators.
pub fn next(rank: Rank) -> Rank
    ensures { result ≡ next_rank rank }
{
    match rank {
        Rank::Sum => Rank::Relation,
        Rank::Relation => Rank::Cut,
        Rank::Cut => Rank::Con,
        Rank::Con => Rank::And,
        Rank::And => Rank::Exclusive,
        Rank::Exclusive => Rank::Or,
        Rank::Or | Rank::Beyond => Rank::Beyond,
    }
}

// What an operator of a rank has on its right.
pub fn operand(rank: Rank) -> Level
    ensures { result ≡ operand_level rank }
{
    match rank {
        Rank::Sum | Rank::Cut | Rank::Beyond => Level::Term,
        Rank::Relation => Level::Arithmetic,
        Rank::Con => Level::Reduction,
        Rank::And => Level::Complement,
        Rank::Exclusive => Level::Product,
        Rank::Or => Level::Minterm,
    }
}

// How many ranks a level has.
fn top(level: Level) -> u8
    ensures { result ≡ top_no level }
{
    match level {
        Level::Term => 0,
        Level::Arithmetic => 1,
        Level::Adjustment | Level::Reduction => 3,
        Level::Chain | Level::Complement => 4,
        Level::Product => 5,
        Level::Minterm => 6,
        Level::Expression => 7,
    }
}

// Whether a level has the operators of a rank.
pub fn within(rank: Rank, level: Level) -> bool
    ensures { result ≡ ltb (rank_no rank) (top_no level) }
{
    (rank as u8) < top(level)
}
