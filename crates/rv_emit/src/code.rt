// The instructions of linear code.

ghost use Rattle.std.specs.Prelude.{◌≡◌, ◌<◌, ◌+◌, ◌*◌, ◌++◌, ◌∷◌, [], OnOk};
ghost use Rattle.rv_isa.specs.declared.instr.Relation.TheVariants.{Less};
ghost use Rattle.rv_runs.specs.Stands.{codes_of};
ghost use Rattle.rv_alloc.specs.Renamed.{renamed, renamed_plain, renamed_service};
ghost use Rattle.rv_layout.specs.Pieces.{stopping, long, go_to, constant, address_word};
ghost use Rattle.rv_layout.specs.Rooms.{cut as cut_of, load_value, store_value};
ghost use Rattle.rv_layout.specs.Words.{load_each, load_kind as kind_of_load, store_kind as kind_of_store, service_number as number_of_service, asking, branching, within, plain_words, instruction_words, far_jump};
ghost use Rattle.rv_layout.specs.Ready.{IsSmall, IsSmallPlain, IsSmallRange};
ghost use Rattle.rv_emit.specs.Placed.{frame_head, number_in, routines_of};
ghost use Rattle.rv_emit.specs.Site.{addresses_of, label_place};
ghost use Rattle.ir_form.specs.Values.{asked};

use crate::frame::{Frame, cut};
use crate::lengths::frame_of;
use crate::site::{Labels, SHARED_AT, Site};
use ir_form::{Plain, Range, Width};
use rv_alloc::Assigned;
use rv_flat::Instruction;
use rv_isa::{Instr, LoadKind, RegisterOp, Relation, Service, StoreKind};
use rv_pieces::Output;
use std::alloc::Global;
use tu_base::Memory;

fn load_kind(width: Width) -> LoadKind
    ensures { result ≡ kind_of_load width }
{
    match width {
        Width::Byte => LoadKind::ByteUnsigned,
        Width::Word => LoadKind::Word,
    }
}

fn store_kind(width: Width) -> StoreKind
    ensures { result ≡ kind_of_store width }
{
    match width {
        Width::Byte => StoreKind::Byte,
        Width::Word => StoreKind::Word,
    }
}

fn service_number(service: Service) -> u32
    ensures is { result ≡ number_of_service service }
    ensures below { result < 9 }
{
    match service {
        Service::End => 0,
        Service::Stop { .. } => 1,
        Service::PutConsole { .. } => 2,
        Service::GetConsole => 3,
        Service::Open { .. } => 4,
        Service::Close { .. } => 5,
        Service::PutStream { .. } => 6,
        Service::GetStream { .. } => 7,
        Service::State { .. } => 8,
    }
}

// Operations on registers and values.
impl Frame<'_> {
    fn push_load_one(self, out: &mut Output, a: u32) -> Result<(), Memory>
        ensures { OnOk result (out.new ≡ out.old ++ codes_of (load_each (frame_head self.entry) 10 (number_in self.entry a ∷ []))) }
    {
        self.load(out, 10, a)
    }

    fn push_load_two(self, out: &mut Output, a: u32, b: u32) -> Result<(), Memory>
        ensures { OnOk result (out.new ≡ out.old ++ codes_of (load_each (frame_head self.entry) 10 (number_in self.entry a ∷ number_in self.entry b ∷ []))) }
    {
        self.load(out, 10, a)?;
        self.load(out, 11, b)
    }

    fn push_load_three(self, out: &mut Output, a: u32, b: u32, c: u32) -> Result<(), Memory>
        ensures { OnOk result (out.new ≡ out.old ++ codes_of (load_each (frame_head self.entry) 10 (number_in self.entry a ∷ number_in self.entry b ∷ number_in self.entry c ∷ []))) }
    {
        self.load(out, 10, a)?;
        self.load(out, 11, b)?;
        self.load(out, 12, c)
    }

    fn push_arguments(self, out: &mut Output, service: Service) -> Result<(), Memory>
        ensures { OnOk result (out.new ≡ out.old ++ codes_of (load_each (frame_head self.entry) 10 (asked (renamed_service (number_in self.entry) service)))) }
    {
        match service {
            Service::End => Ok(()),
            Service::Stop { kind, line } => self.push_load_two(out, kind, line),
            Service::PutConsole { at, length } => self.push_load_two(out, at, length),
            Service::GetConsole => Ok(()),
            Service::Open { at, length, mode } => self.push_load_three(out, at, length, mode),
            Service::Close { stream } => self.push_load_one(out, stream),
            Service::PutStream { stream, at, length } => {
                self.push_load_three(out, stream, at, length)
            }
            Service::GetStream { stream } => self.push_load_one(out, stream),
            Service::State { stream } => self.push_load_one(out, stream),
        }
    }

    fn push_asking(self, out: &mut Output, to: u32, service: Service) -> Result<(), Memory>
        ensures { OnOk result (out.new ≡ out.old ++ codes_of (asking (frame_head self.entry) (number_in self.entry to) (renamed_service (number_in self.entry) service))) }
    {
        self.push_arguments(out, service)?;
        out.push_ask(service_number(service))?;
        self.store(out, 10, to)
    }

    // Goes to a place unless the relation holds.
    fn push_branching(
        self,
        out: &mut Output,
        relation: Relation,
        left: u32,
        right: u32,
        place: u32,
    ) -> Result<(), Memory>
        ensures { OnOk result (out.new ≡ out.old ++ codes_of (branching (frame_head self.entry) relation (number_in self.entry left) (number_in self.entry right) (go_to place))) }
    {
        self.load(out, 5, left)?;
        self.load(out, 6, right)?;
        out.push(Instr::Branch {
            relation,
            rs1: 5,
            rs2: 6,
            offset: 12,
        })?;
        out.push_go(place)
    }

    // Goes to a place where the range has the value.
    fn push_within(
        self,
        out: &mut Output,
        value: u32,
        range: &Range,
        place: u32,
    ) -> Result<(), Memory>
        ensures words { OnOk result (out.new ≡ out.old ++ codes_of (within (frame_head self.entry) (number_in self.entry value) range.now (go_to place))) }
        ensures small { IsSmallRange range.now }
    {
        let relation = Relation::Less;
        let (low, high) = (range.low, range.high);
        self.load(out, 5, value)?;
        out.push_long(6, low.cast_unsigned())?;
        out.push(Instr::Branch {
            relation,
            rs1: 5,
            rs2: 6,
            offset: 24,
        })?;
        out.push_long(6, high.cast_unsigned())?;
        out.push(Instr::Branch {
            relation,
            rs1: 6,
            rs2: 5,
            offset: 12,
        })?;
        out.push_go(place)
    }
}

// Single operations.
impl Frame<'_> {
    fn push_constant_of(self, out: &mut Output, to: u32, word: u32) -> Result<(), Memory>
        ensures { OnOk result (out.new ≡ out.old ++ codes_of (constant 5 word ++ store_value (frame_head self.entry) 5 (number_in self.entry to))) }
    {
        out.push_constant(5, word)?;
        self.store(out, 5, to)
    }

    fn push_frame_of(self, out: &mut Output, to: u32, word: u64) -> Result<(), Memory>
        ensures { OnOk result (out.new ≡ out.old ++ codes_of (address_word 5 2 (4 * cut_of word) ++ store_value (frame_head self.entry) 5 (number_in self.entry to))) }
    {
        out.push_address(5, 2, 4 * (cut(word) as u32))?;
        self.store(out, 5, to)
    }

    fn push_word_of(self, out: &mut Output, to: u32, word: u64) -> Result<(), Memory>
        ensures { OnOk result (out.new ≡ out.old ++ codes_of (long 5 word ++ store_value (frame_head self.entry) 5 (number_in self.entry to))) }
    {
        out.push_long(5, (word % 4294967296) as u32)?;
        self.store(out, 5, to)
    }

    fn push_global_of(self, out: &mut Output, site: &Site, to: u32, word: u32) -> Result<(), Memory>
        ensures { OnOk result (out.new ≡ out.old ++ codes_of (long 5 (site.now.globals + 4 * word) ++ store_value (frame_head self.entry) 5 (number_in self.entry to))) }
    {
        self.push_word_of(out, to, u64::from(site.globals) + 4 * u64::from(word))
    }

    fn push_text_of(self, out: &mut Output, site: &Site, to: u32, byte: u32) -> Result<(), Memory>
        ensures { OnOk result (out.new ≡ out.old ++ codes_of (long 5 (site.now.texts + byte) ++ store_value (frame_head self.entry) 5 (number_in self.entry to))) }
    {
        self.push_word_of(out, to, u64::from(site.texts) + u64::from(byte))
    }

    fn push_compute(
        self,
        out: &mut Output,
        op: RegisterOp,
        to: u32,
        left: u32,
        right: u32,
    ) -> Result<(), Memory>
        ensures { OnOk result (out.new ≡ out.old ++ codes_of (load_value (frame_head self.entry) 5 (number_in self.entry left) ++ (load_value (frame_head self.entry) 6 (number_in self.entry right) ++ (Instr.Register op 5 5 6 ∷ store_value (frame_head self.entry) 5 (number_in self.entry to))))) }
    {
        self.load(out, 5, left)?;
        self.load(out, 6, right)?;
        out.push(Instr::Register {
            op,
            rd: 5,
            rs1: 5,
            rs2: 6,
        })?;
        self.store(out, 5, to)
    }

    fn push_loading(self, out: &mut Output, width: Width, to: u32, at: u32) -> Result<(), Memory>
        ensures { OnOk result (out.new ≡ out.old ++ codes_of (load_value (frame_head self.entry) 5 (number_in self.entry at) ++ (Instr.Load (kind_of_load width) 5 5 0 ∷ store_value (frame_head self.entry) 5 (number_in self.entry to)))) }
    {
        self.load(out, 5, at)?;
        out.push(Instr::Load {
            kind: load_kind(width),
            rd: 5,
            rs1: 5,
            offset: 0,
        })?;
        self.store(out, 5, to)
    }

    fn push_storing(self, out: &mut Output, width: Width, at: u32, from: u32) -> Result<(), Memory>
        ensures { OnOk result (out.new ≡ out.old ++ codes_of (load_value (frame_head self.entry) 5 (number_in self.entry at) ++ (load_value (frame_head self.entry) 6 (number_in self.entry from) ++ Instr.Store (kind_of_store width) 5 6 0 ∷ []))) }
    {
        self.load(out, 5, at)?;
        self.load(out, 6, from)?;
        out.push(Instr::Store {
            kind: store_kind(width),
            rs1: 5,
            rs2: 6,
            offset: 0,
        })
    }

    // The exception whose number and line two values have.
    fn push_throw(self, out: &mut Output, kind: u32, line: u32) -> Result<(), Memory>
        ensures { OnOk result (out.new ≡ out.old ++ codes_of (load_value (frame_head self.entry) 10 (number_in self.entry kind) ++ (load_value (frame_head self.entry) 11 (number_in self.entry line) ++ stopping))) }
    {
        self.load(out, 10, kind)?;
        self.load(out, 11, line)?;
        out.push_ask(1)
    }

    fn push_plain(
        self,
        out: &mut Output,
        assigned: &Assigned,
        site: &Site,
        plain: &Plain,
    ) -> Result<(), Memory>
        ensures words { OnOk result (out.new ≡ out.old ++ codes_of (plain_words (addresses_of site.now) (routines_of assigned.now) (frame_head self.entry) (renamed_plain (number_in self.entry) plain.now))) }
        ensures small { IsSmallPlain (renamed_plain (number_in self.entry) plain.now) }
    {
        match plain {
            Plain::Constant { to, word } => self.push_constant_of(out, *to, *word),
            Plain::Global { to, word } => self.push_global_of(out, site, *to, *word),
            Plain::Heap { to } => self.store(out, 4, *to),
            Plain::Frame { to, word } => self.push_frame_of(out, *to, *word),
            Plain::Text { to, byte } => self.push_text_of(out, site, *to, *byte),
            Plain::Compute {
                to,
                op,
                left,
                right,
            } => self.push_compute(out, *op, *to, *left, *right),
            Plain::Load { to, width, at } => self.push_loading(out, *width, *to, *at),
            Plain::Store { width, at, from } => self.push_storing(out, *width, *at, *from),
            Plain::Ask { to, service } => self.push_asking(out, *to, *service),
            Plain::Call {
                routine,
                arguments,
                to,
                line,
            } => {
                let callee = frame_of(assigned, *routine as usize);
                let entry = site.entry(*routine);
                self.push_calling(
                    out,
                    entry,
                    callee,
                    arguments.as_slice(),
                    to.as_slice(),
                    *line,
                )
            }
            Plain::Raise { kind, line } => out.push_raising(kind.number(), *line),
            Plain::Throw { kind, line } => self.push_throw(out, *kind, *line),
            Plain::Take { to, words, line } => {
                self.push_taking(out, SHARED_AT, *to, *words, *line)
            }
            Plain::Give { words } => self.push_handing_back(out, *words),
        }
    }

    // An instruction, in a routine whose labels lie so.
    pub fn push_instruction(
        self,
        alloc: Global,
        out: &mut Output,
        assigned: &Assigned,
        site: &Site,
        labels: &Labels,
        instruction: &Instruction,
    ) -> Result<(), Memory>
        ensures words { OnOk result (out.new ≡ out.old ++ codes_of (instruction_words (addresses_of site.now) (routines_of assigned.now) (frame_head self.entry) (far_jump (label_place labels.now)) (renamed (number_in self.entry) instruction.now))) }
        ensures small { IsSmall (renamed (number_in self.entry) instruction.now) }
    {
        match instruction {
            Instruction::Plain(plain) => self.push_plain(out, assigned, site, plain),
            Instruction::Guarded { plain, .. } => self.push_plain(out, assigned, site, plain),
            Instruction::Open { .. } => Ok(()),
            Instruction::Branch {
                relation,
                left,
                right,
                label,
            } => self.push_branching(out, *relation, *left, *right, labels.place(*label)),
            Instruction::Within {
                value,
                range,
                label,
            } => self.push_within(out, *value, range, labels.place(*label)),
            Instruction::Hand { to, from } => {
                self.push_handing(alloc, out, to.as_slice(), from.as_slice())
            }
            Instruction::Jump { label } => out.push_go(labels.place(*label)),
            Instruction::Label { .. } => out.push_nothing(),
            Instruction::Back { gives } => self.push_returning(out, gives.as_slice()),
        }
    }
}
