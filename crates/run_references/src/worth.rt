// What an expression gives, and what an operator makes of its operands' values.
ghost use Rattle.std.specs.Prelude.{◌≡◌};
ghost use Rattle.language.specs.Meaning as M;
ghost use Rattle.language.specs.Operators.{binary_of, cut_of, is_binary, is_cut, is_prefix, prefix_of};
ghost use Rattle.value_operators.specs.Meaning.{valued};
ghost use Rattle.run_references.specs.Worth.{answered, stuck_meant};

use language::stops::Stop;
use value_operators::{Value, operators};

// The ways to be stuck that are tested for; no passing image reaches one.
#[derive(Clone, Copy)]
pub enum Stuck {
    NotBefore,
    WrongRecord,
    NoArm,
    MissingArm,
    NoFacility,
    NoOperation,
    NoState,
    NoOperator,
    WrongSubscripts,
    Outside,
    WrongLength,
    WrongCount,
    LengthDiffers,
    NotOneBit,
    SidesDiffer,
    NotStorable,
    RunsOver,
    NoStateValue,
}

// Why a cycle goes no further: a stop, or a way to be stuck.
#[derive(Clone, Copy)]
pub enum Halted {
    Stopped(Stop),
    Stuck(Stuck),
}

// What an expression is worth: a value, or why there is none.
pub type Worth = Result<Value, Halted>;

// Why an operator made nothing: it is none, or s.
fn missed(known: bool, s: Stuck) -> Stuck
    ensures { stuck_meant result ≡ M.missed known (stuck_meant s) }
{
    if known { s } else { Stuck::NoOperator }
}

// An operator between a value and what comes after it.
pub fn binary(kind: u8, x: Value, y: Worth) -> Worth
    ensures { answered result ≡ M.after (answered y) (λ w. M.worth_or (M.missed (is_binary kind) M.wrong_length) (binary_of kind (valued x) w)) }
{
    let Some(made) = operators::binary(kind, x, y?) else {
        let why = missed(operators::is_binary(kind), Stuck::WrongLength);
        return Err(Halted::Stuck(why));
    };
    Ok(made)
}

// An operator before its operand.
pub fn prefix(kind: u8, x: Worth) -> Worth
    ensures { answered result ≡ M.after (answered x) (λ v. M.worth_or (M.missed (is_prefix kind) M.wrong_length) (prefix_of kind v)) }
{
    let Some(made) = operators::prefix(kind, x?) else {
        let why = missed(operators::is_prefix(kind), Stuck::WrongLength);
        return Err(Halted::Stuck(why));
    };
    Ok(made)
}

// HEAD, TAIL and EXT with their count.
pub fn cut(kind: u8, x: Worth, c: u16) -> Worth
    ensures { answered result ≡ M.after (answered x) (λ v. M.worth_or (M.missed (is_cut kind) M.wrong_count) (cut_of kind v c)) }
{
    let Some(made) = operators::cut(kind, x?, c) else {
        let why = missed(operators::is_cut(kind), Stuck::WrongCount);
        return Err(Halted::Stuck(why));
    };
    Ok(made)
}
