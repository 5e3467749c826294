// Which list an action that holds others goes on with: an arm's, or an operation's. Nothing is executed yet.
ghost use Rattle.std.specs.Prelude.{IfOk, ◌≡◌, suc, ◌/◌, ◌<◌, length};
ghost use Rattle.language.specs.Acting as T;
ghost use Rattle.language.specs.Description.{Description};
ghost use Rattle.language.specs.Encode.{action_size};
ghost use Rattle.language.specs.Meaning as M;
ghost use Rattle.run_expressions.specs.Images.{Described};
ghost use Rattle.store_layout.specs.InBytes.{InBytes, bytes};
ghost use Rattle.run_actions.specs.Acts.{Actions, OperationOf, TakenFalls, arm_done, arm_meant, choose_done, way_done, when_done};

use crate::arms;
use crate::arms::Arm;
use image_sections::sections::Sections;
use run_expressions::eval;
use run_references::bounds;
use run_references::worth::{Halted, Stuck};

// A list of so many records from the first on, which may name the operations below a number.
#[derive(Clone, Copy)]
pub struct Nested {
    pub below: usize,
    pub first: usize,
    pub count: u16,
}

// The list that an action goes on with, where it takes one.
pub type Way = Result<Option<Nested>, Halted>;

// The actions of an arm; m records stand after the conditional's own.
fn into_arm(limit: usize, m: u16, a: Arm) -> Way
    ensures { IfOk result (TakenFalls limit m) × ((d : Description) (c : T.Doing InBytes) → way_done d result c ≡ arm_done (bytes d) d (T.operation_below (bytes d) d limit) (T.list_below (bytes d) d (T.operation_below (bytes d) d limit) (suc m)) (arm_meant a) c) }
{
    let (first, count) = a.ok_or(Halted::Stuck(Stuck::MissingArm))?;
    if m < count {
        return Err(Halted::Stuck(Stuck::RunsOver));
    }
    Ok(Some(Nested {
        below: limit,
        first,
        count,
    }))
}

// IF without ELSE: one takes the arm, zero takes nothing.
pub fn when(image: &Sections, store: &[u8], limit: usize, i: usize, m: u16, e: u16, x: u16) -> Way
    requires { i < length image.now.actions.now / action_size }
    ensures { IfOk result (TakenFalls limit m) × ((d : Description) (c : T.Doing InBytes) → Described d image.now → Actions d image.now.actions.now → c.store.bytes ≡ store.now → way_done d result c ≡ T.on_value (M.eval_at (bytes d) d c.store e) (λ v. when_done (bytes d) d (T.operation_below (bytes d) d limit) (T.list_below (bytes d) d (T.operation_below (bytes d) d limit) (suc m)) i x v c)) }
{
    let v = eval::eval(image, store, e as usize)?;
    if v.length != 1 {
        return Err(Halted::Stuck(Stuck::NotOneBit));
    }
    if bounds::small(v) == 0 {
        return Ok(None);
    }
    into_arm(limit, m, arms::arm_at(image.actions, 0, i + 1, x))
}

// CASE, and IF with ELSE: n arms, of which the condition's value takes one.
pub fn choose(
    image: &Sections,
    store: &[u8],
    limit: usize,
    i: usize,
    m: u16,
    e: u16,
    n: u16,
    x: u16,
) -> Way
    requires { i < length image.now.actions.now / action_size }
    ensures { IfOk result (TakenFalls limit m) × ((d : Description) (c : T.Doing InBytes) → Described d image.now → Actions d image.now.actions.now → c.store.bytes ≡ store.now → way_done d result c ≡ T.on_value (M.eval_at (bytes d) d c.store e) (λ v. choose_done (bytes d) d (T.operation_below (bytes d) d limit) (T.list_below (bytes d) d (T.operation_below (bytes d) d limit) (suc m)) n i x v c)) }
{
    let v = eval::eval(image, store, e as usize)?;
    if !run_references::arms::decides(n, v) {
        return Err(Halted::Stuck(Stuck::NotOneBit));
    }
    let k = run_references::arms::arm_number(n, v).ok_or(Halted::Stuck(Stuck::NoArm))?;
    into_arm(
        limit,
        m,
        arms::arm_at(image.actions, k.saturating_sub(1), i + 1, x),
    )
}

// An operation, by its number: one of those below `limit`, and it may name those below itself.
pub fn perform(operations: &[u8], limit: usize, m: u16, o: u16) -> Way
    ensures { IfOk result (TakenFalls limit m) × ((d : Description) (c : T.Doing InBytes) → OperationOf d operations.now o → way_done d result c ≡ T.operation_below (bytes d) d limit o c) }
{
    let number = o as usize;
    if limit <= number {
        return Err(Halted::Stuck(Stuck::NoOperation));
    }
    let body = image_sections::operations::operation_at(operations, number).body;
    Ok(Some(Nested {
        below: number,
        first: body.first as usize,
        count: body.count,
    }))
}
