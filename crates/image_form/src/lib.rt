// The form of an image: its bytes are those of what they describe, in the layout that reading writes. Of the check all but the rules.
#![tactic(auto)]

pub mod counts;
pub mod labels;
pub mod nesting;
pub mod rows;
pub mod shapes;

ghost use Rattle.std.specs.Prelude.{◌≡◌, ◌^◌, ◌<◌, length};
ghost use Rattle.language.specs.Canonical.{canonical};
ghost use Rattle.language.specs.Decode.{described};
ghost use Rattle.image_sections.proofs.ImageLaws.{Sized};
ghost use Rattle.about_images.specs.Whole.{sections_same};
ghost use Rattle.image_form.specs.Form.{form_right, sectioned};
ghost use Rattle.image_form.specs.Names.{named_right};

use image_order::{runs, trees};
use image_records::bytes;
use image_sections::header::Counts;
use image_sections::{header, names, sections};

// Whether sections are those that writing gives what they describe. Records of operations and states always are.
fn written(
    c: Counts,
    facilities: &[u8],
    operations: &[u8],
    exprs: &[u8],
    acts: &[u8],
    states: &[u8],
    names: &[u8],
) -> bool
    requires { Sized (sectioned facilities.now operations.now exprs.now acts.now states.now names.now) c }
    ensures { result ≡ sections_same (sectioned facilities.now operations.now exprs.now acts.now states.now names.now) }
{
    if !labels::names_fit(c, facilities, operations, states, names) {
        return false;
    }
    if !rows::facilities_right(facilities) {
        return false;
    }
    if !rows::nodes_right(exprs) {
        return false;
    }
    rows::actions_right(acts)
}

// Whether the names of facilities, operations and states are right.
fn named(c: Counts, facilities: &[u8], operations: &[u8], states: &[u8], names: &[u8]) -> bool
    requires { length states.now < 2 ^ 36 }
    ensures { result ≡ named_right c facilities.now operations.now states.now names.now }
{
    let first = labels::names_end(
        facilities,
        c.facilities,
        names::FACILITY_NAME,
        names::FACILITY,
        names,
    );
    if first == 0 {
        return false;
    }
    let second = bytes::part(names, first - 1, names.len());
    let next = labels::names_end(operations, c.operations, 0, names::OPERATION, second);
    if next == 0 {
        return false;
    }
    let third = bytes::part(second, next - 1, names.len());
    labels::labels_right(states, third)
}

// Whether what the sections describe is in the form that reading gives. Runs come before trees: only then are the trees of all actions a single walk.
fn formed(
    c: Counts,
    facilities: &[u8],
    operations: &[u8],
    exprs: &[u8],
    acts: &[u8],
    states: &[u8],
    names: &[u8],
) -> bool
    requires { Sized (sectioned facilities.now operations.now exprs.now acts.now states.now names.now) c }
    ensures { result ≡ canonical (described (sectioned facilities.now operations.now exprs.now acts.now states.now names.now)) }
{
    if !counts::counts_right(facilities, operations, exprs, acts, states) {
        return false;
    }
    if !shapes::facilities_shaped(facilities) {
        return false;
    }
    if !named(c, facilities, operations, states, names) {
        return false;
    }
    if !runs::runs_right(operations, acts, states) {
        return false;
    }
    trees::trees_right(facilities, operations, exprs, acts, states)
}

// Whether an image has the right form, whatever stands behind its total length.
pub fn form(image: &[u8]) -> bool
    ensures { result ≡ form_right image.now }
{
    if !header::header_right(image) {
        return false;
    }
    let c = header::counts_at(image);
    let facilities = sections::section(image, sections::FACILITIES);
    let operations = sections::section(image, sections::OPERATIONS);
    let exprs = sections::section(image, sections::EXPRESSIONS);
    let acts = sections::section(image, sections::ACTIONS);
    let states = sections::section(image, sections::STATES);
    let names = sections::section(image, sections::NAMES);
    if !written(c, facilities, operations, exprs, acts, states, names) {
        return false;
    }
    formed(c, facilities, operations, exprs, acts, states, names)
}
