// An operation's record; its name stands elsewhere.
ghost use Rattle.std.specs.Prelude.{◌≡◌, length};
ghost use Rattle.language.specs.Encode.{operation_record};
ghost use Rattle.language.specs.Tree.{Name};
ghost use Rattle.image_sections.specs.Declarations.{OperationRead, operation_meant};

use crate::runs;
use crate::runs::Run;
use image_records::record_sizes;

#[derive(Clone, Copy)]
pub struct OperationRecord {
    // the length of its name
    pub name: u8,
    pub body: Run,
}

// Record n of a section of operations.
pub fn operation_at(operations: &[u8], n: usize) -> OperationRecord
    ensures { OperationRead operations.now n result }
{
    if operations.len() / record_sizes::OPERATION <= n {
        return OperationRecord {
            name: 0,
            body: Run { first: 0, count: 0 },
        };
    }
    let at = record_sizes::OPERATION * n;
    OperationRecord {
        name: operations[at],
        body: runs::run_at(operations, at + 1),
    }
}

// The bytes of a record.
#[tactic(auto, unfolding(language::specs::Encode::operation_record, language::specs::Encode::little))]
pub fn operation_bytes(o: OperationRecord) -> [u8; record_sizes::OPERATION]
    ensures { (name : Name) → length name ≡ o.name → result ≡ operation_record (operation_meant name o) }
{
    let [f0, f1] = o.body.first.to_le_bytes();
    let [c0, c1] = o.body.count.to_le_bytes();
    [o.name, f0, f1, c0, c1]
}
