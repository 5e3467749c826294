// The check of an image: what bounds the walks over it, its form, then the rules over what it describes.
#![tactic(auto)]

pub mod looked;

ghost use Rattle.std.specs.Prelude.{◌≡◌, ◌/◌, ◌≤◌, eqb, length};
ghost use Rattle.language.specs.Decode.{described};
ghost use Rattle.language.specs.Description.{no_places};
ghost use Rattle.language.specs.Image as L;
ghost use Rattle.language.specs.Rules.{faults};
ghost use Rattle.image_form.specs.Form.{sectioned};
ghost use Rattle.language.specs.Encode.{facility_size, operation_size};

use image_records::bytes;
use image_sections::sections;
use judge_all::Described;

// Whether no rule finds a fault. An image has no places.
fn faultless(fs: &[u8], os: &[u8], es: &[u8], acts: &[u8], ss: &[u8], ns: &[u8]) -> bool
    requires { (length fs.now / facility_size ≤ 65536) × (length os.now / operation_size ≤ 256) }
    ensures { result ≡ eqb (length (faults (described (sectioned fs.now os.now es.now acts.now ss.now ns.now)) no_places)) 0 }
{
    let none = bytes::part(ns, 0, 0);
    let described = Described {
        facilities: fs,
        operations: os,
        expressions: es,
        actions: acts,
        states: ss,
        names: ns,
        facility_places: none,
        operation_places: none,
        expression_places: none,
        action_places: none,
        state_places: none,
    };
    judge_all::least_fault(&described).is_ok()
}

// Whether an image passes, whatever stands behind its total length. An image that is not bounded does not pass; the walks over it could be too deep.
pub fn passes(image: &[u8]) -> bool
    ensures { result ≡ L.passes image.now }
{
    let exprs = sections::section(image, sections::EXPRESSIONS);
    let acts = sections::section(image, sections::ACTIONS);
    if !image_form::nesting::bounded(exprs, acts) {
        return false;
    }
    if !image_form::form(image) {
        return false;
    }
    let facilities = sections::section(image, sections::FACILITIES);
    let operations = sections::section(image, sections::OPERATIONS);
    let states = sections::section(image, sections::STATES);
    let names = sections::section(image, sections::NAMES);
    faultless(facilities, operations, exprs, acts, states, names)
}
