// Reading a file from its first record to its last.
ghost use Rattle.std.specs.Prelude.{◌≡◌, List, length, IfOk};
ghost use Rattle.planfile.specs.Cutting.{WholeRead};
ghost use Rattle.planfile.specs.Files.{EndsFit, FileLaw, LeavesPlan, answer_to, blocks_left, outcome};

use crate::cause::Fault;
use crate::layers::Layers;
use crate::reader::Reader;
use crate::records::Records;
use crate::whole::Whole;
use cores::Block;
use graph::Plan;

// All of a file: its records up to the first bad one, and then its plan.
fn read_whole(file: &[u8], list: &mut [Block]) -> Result<Whole, Fault>
    ensures read { WholeRead (length list.old) file.now list.new result }
    ensures size { length list.new ≡ length list.old }
{
    let mut reader = Reader::new(list);
    for next in Records::new(file) {
        let record = next?;
        reader
            .take(&record)
            .map_err(|cause| cause.at(record.place))?;
    }
    let plan = reader.finish(file)?;
    Ok(Whole {
        plan,
        filled: reader.filled,
        layers: reader.layers,
    })
}

// What a place of the list holds that no block fills.
pub const NO_BLOCK: Block = Block { cores: 0, ticks: 0 };

// Reads a file into a plan and a list of blocks, and answers its hold-back and late. Places of the list that no block fills become zero.
// A file that is refused leaves the plan empty and the whole list zero.
pub fn read(file: &[u8], plan: &mut Plan, blocks: &mut [Block]) -> Result<Layers, Fault>
    ensures answer { result ≡ answer_to (outcome (length blocks.old) file.now) }
    ensures ends { IfOk result EndsFit }
    ensures plan { LeavesPlan (outcome (length blocks.old) file.now) plan.new }
    ensures list { blocks.new ≡ blocks_left (length blocks.old) (outcome (length blocks.old) file.now) }
    ensures law { FileLaw (length blocks.old) file.now }
{
    match read_whole(file, blocks) {
        Ok(whole) => {
            let filled = whole.filled;
            *plan = whole.plan;
            blocks[filled..].fill(NO_BLOCK);
            Ok(whole.layers)
        }
        Err(fault) => {
            *plan = Plan::empty();
            blocks.fill(NO_BLOCK);
            Err(fault)
        }
    }
}
