ghost use Rattle.std.specs.Prelude.{◌≡◌, ◌≤◌, length, None};
ghost use Rattle.graph.specs.Drafts.{in_range};
ghost use Rattle.planfile.specs.Kinds.{kind_number, last_number};
ghost use Rattle.planfile.specs.Records.{deadline, step, edge, block, hold_back, late};
ghost use Rattle.planfile.specs.Rules.{nothing_read, some_cores, kind_causes, first_cause};

use crate::cause::{Cause, Fault};
use crate::decoding::decode;
use crate::entry::Entry;
use crate::finding::find;
use crate::kind::Kind;
use crate::labels::is_printable;
use crate::layers::Layers;
use crate::record::Record;
use cores::{Block, WIDEST, Window};
use graph::{Draft, LONGEST, Plan, Refusal};

fn is_in_range(ticks: u16) -> bool
    ensures { result ≡ in_range ticks }
{
    (1..=LONGEST).contains(&ticks)
}

fn is_some_cores(cores: u8) -> bool
    ensures { result ≡ some_cores cores }
{
    (1..=WIDEST).contains(&cores)
}

// What has been read of a file: the kind of its last record, its plan so far, its blocks, which fill the front places of the caller's list, and its layers.
#[derive(Drop)]
pub(crate) struct Reader<'a> {
    last: Option<Kind>,
    draft: Draft,
    pub(crate) blocks: &'a mut [Block],
    pub(crate) filled: usize,
    pub(crate) layers: Layers,
    ghost few: { filled ≤ length blocks.now },
}

impl<'a> Reader<'a> {
    ghost use Rattle.planfile.specs.Cutting.{meaning, reading_in, refused_by, Ended, Entered, Takes};

    // Nothing has been read.
    pub(crate) fn new(blocks: &'a mut [Block]) -> Reader<'a>
        ensures reading { reading_in result ≡ nothing_read }
        ensures last { result.last ≡ None }
        ensures list { result.blocks.ghost_name ≡ blocks.entry.ghost_name }
        ensures size { length result.blocks.now ≡ length blocks.old }
    {
        Reader {
            last: None,
            draft: Draft::new(),
            blocks,
            filled: 0,
            layers: Layers::default(),
        }
    }

    fn enter_deadline(&mut self, ticks: u16) -> Result<(), Cause>
        ensures { Entered self.old (deadline ticks) result self.new }
    {
        self.draft.set_deadline(ticks)?;
        Ok(())
    }

    fn enter_step(&mut self, time: u16, label: &[u8]) -> Result<(), Cause>
        ensures { Entered self.old (step time label.now) result self.new }
    {
        self.draft.add_step(time)?;
        if is_printable(label) {
            Ok(())
        } else {
            Err(Cause::OutOfRange)
        }
    }

    fn enter_edge(&mut self, from: u8, to: u8) -> Result<(), Cause>
        ensures { Entered self.old (edge from to) result self.new }
    {
        self.draft.add_edge(from, to)?;
        Ok(())
    }

    fn enter_block(&mut self, added: Block) -> Result<(), Cause>
        ensures { Entered self.old (block added.cores added.ticks) result self.new }
    {
        if self.filled >= self.blocks.len() {
            return Err(Cause::NoRoom);
        }
        if !is_some_cores(added.cores) || !is_in_range(added.ticks) {
            return Err(Cause::OutOfRange);
        }
        self.blocks[self.filled] = added;
        self.filled += 1;
        Ok(())
    }

    fn enter_hold_back(&mut self, window: Window) -> Result<(), Cause>
        ensures { Entered self.old (hold_back window.cores window.from window.until) result self.new }
    {
        if !is_some_cores(window.cores) || window.from >= window.until {
            return Err(Cause::OutOfRange);
        }
        self.layers.hold_back = Some(window);
        Ok(())
    }

    fn enter_late(&mut self, ticks: u16) -> Result<(), Cause>
        ensures { Entered self.old (late ticks) result self.new }
    {
        if !is_in_range(ticks) {
            return Err(Cause::OutOfRange);
        }
        self.layers.late = Some(ticks);
        Ok(())
    }

    fn enter(&mut self, entry: Entry<'_>) -> Result<(), Cause>
        ensures { Entered self.old (meaning entry.entry) result self.new }
    {
        match entry {
            Entry::Deadline(ticks) => self.enter_deadline(ticks),
            Entry::Step(time, label) => self.enter_step(time, label),
            Entry::Edge(from, to) => self.enter_edge(from, to),
            Entry::Block(block) => self.enter_block(block),
            Entry::HoldBack(window) => self.enter_hold_back(window),
            Entry::Late(ticks) => self.enter_late(ticks),
        }
    }

    // Whether a record may come here, by its kind and the length of its body.
    fn admit(&self, next: &Record<'_>) -> Result<(), Cause>
        ensures { result ≡ refused_by (first_cause (kind_causes (last_number self.now.last) (kind_number next.now.kind) (length next.now.body.now))) }
    {
        let rule = next.kind.rule();
        if !(rule.shortest..=rule.longest).contains(&next.body.len()) {
            return Err(Cause::BodyLength);
        }
        if Some(next.kind) < self.last || Some(next.kind) == self.last && !rule.repeats {
            return Err(Cause::OutOfOrder);
        }
        Ok(())
    }

    // Takes a record in, or refuses it for the first cause that holds.
    pub(crate) fn take(&mut self, next: &Record<'_>) -> Result<(), Cause>
        ensures { Takes self.old next.now result self.new }
    {
        self.admit(next)?;
        let entry = decode(next.kind, next.body)?;
        self.enter(entry)?;
        self.last = Some(next.kind);
        Ok(())
    }

    // The plan of a file whose records are good: a part may be missing, or an edge implied.
    pub(crate) fn finish(&self, file: &[u8]) -> Result<Plan, Fault>
        ensures { Ended self.now file.now result }
    {
        let incomplete = Cause::Incomplete.at(file.len());
        if self.filled == 0 {
            return Err(incomplete);
        }
        match self.draft.finish() {
            Ok(plan) => Ok(plan),
            Err(Refusal::ImpliedEdge(edge)) => {
                let record = find(file, Kind::Edge, usize::from(edge)).ok_or(incomplete)?;
                Err(Cause::ImpliedEdge.at(record.place))
            }
            Err(_) => Err(incomplete),
        }
    }
}
