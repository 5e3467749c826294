// The arms of a conditional action, which stand one after another behind it.
ghost use Rattle.std.specs.Prelude.{◌≡◌, length};
ghost use Rattle.language.specs.Acting as T;
ghost use Rattle.language.specs.Description.{Description, action_at};
ghost use Rattle.run_references.specs.Places.{found_meant};
ghost use Rattle.run_actions.specs.Acts.{Actions, Within, arm_meant, passed_of};

use image_records::actions::Action;
use image_records::{actions, record_sizes};

// The first action of an arm, and how many it has, where there is such an arm.
pub type Arm = Option<(usize, u16)>;

// How many actions the arm at record i has.
fn arm_size(section: &[u8], i: usize) -> Option<u16>
    ensures { Within i (length section.now) result × ((d : Description) → Actions d section.now → found_meant result ≡ T.arm_size (action_at d i)) }
{
    if section.len() / record_sizes::ACTION <= i {
        return None;
    }
    let Action::Arm(x) = actions::action_at(section, i) else {
        return None;
    };
    Some(x)
}

// The arm `back` arms after the one at record `first`, where so many records are left.
pub fn arm_at(section: &[u8], back: u16, first: usize, within: u16) -> Arm
    ensures { (d : Description) → Actions d section.now → arm_meant result ≡ T.arm_at d back first within }
{
    let mut i = first;
    let mut left = within;
    for _ in 0..back {
        let x = arm_size(section, i)?;
        if left <= x {
            return None;
        }
        i = i + 1 + x as usize;
        left -= x + 1;
    }
    let x = arm_size(section, i)?;
    if left <= x {
        return None;
    }
    Some((i + 1, x))
}

// How many records after its own an action passes over.
pub fn passed(a: Action) -> u16
    ensures { result ≡ passed_of a }
{
    match a {
        Action::When(_, x) | Action::Choose(_, _, x) => x,
        _ => 0,
    }
}
