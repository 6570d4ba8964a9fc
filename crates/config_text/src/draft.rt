//! A configuration that is being read.

ghost use Rattle.std.specs.Prelude.{◌≡◌, ◌≤◌, ◌<◌, ◌∷◌, ◌&&◌, ℕ, List, [], IfOk, MatchOption, true, false, length, map, codes};
ghost use Rattle.std.specs.Result.{result_err};
ghost use Rattle.text_lines.specs.Faults.{first_code, judged};
ghost use Rattle.text_lines.specs.Lines.{views};
ghost use Rattle.labels.specs.Label.{at_or_below};
ghost use Rattle.config_text.specs.Valid.{is_class, uses_script};
ghost use Rattle.config_text.specs.Place.{place_of, config_in, start};
ghost use Rattle.config_text.specs.Rules as spec;
ghost use Rattle.config_text.specs.Reading.{Answers, Taking, Takes, TakesBody, TakesKind, gate_past_in, process_past_in};
ghost use Rattle.config_text.specs.declared.fault.Code.TheVariants as code;
ghost use Rattle.config_text.specs.declared.stage.Stage.TheVariants as stage;

use crate::config::{GateLine, Item, Pool, ProcessLine, Script};
use crate::fault::{Code, Refusal};
use crate::judging::{
    brackets, class_list, count_of, cycle_fault, header_fault, is_below, new_entry, number_in,
    pool_in, push_events,
};
use crate::limits::{
    MAX_CLASSES, MAX_CONSOLE, MAX_EVENTS, MAX_GATES, MAX_PROCESSES, MAX_PROCESSORS, MAX_QUANTUM,
    MAX_RING, MAX_ROUNDS, MAX_SCRIPTS,
};
use crate::stage::{Kind, Stage, after_class, kind_of, may_stand};
use crate::words::{
    byte, class_words, has_misspelt, has_misspelt_event, has_no_event, has_outside_event,
    is_misspelt, is_outside, is_past, total_events, value,
};
use arrayvec::ArrayString;
use labels::Label;
use rings::Ring;
use std::alloc::Global;

/// What the lines so far say.
#[derive(Drop)]
pub struct Draft {
    pub stage: Stage,
    /// How many class lines are still to come.
    pub due: u8,
    pub entries: Vec<(ArrayString<16>, Label)>,
    pub pools: Vec<Pool>,
    pub processors: u8,
    pub cycle: Vec<u8>,
    pub rounds: u32,
    pub quantum: u32,
    pub console: u32,
    pub scripts: Vec<Script>,
    pub gates: Vec<GateLine>,
    pub processes: Vec<ProcessLine>,
    pub schedule: Vec<Item>,
    /// The events of the schedule so far.
    pub used: u64,
}

/// What a line outside a script is.
#[derive(Clone, Copy, Debug, PartialEq, Eq)]
pub enum Taken {
    /// A line that is taken.
    Line,
    /// The first line of a script of the class.
    Script { class: u8 },
}

/// A line that is taken begins no script.
fn as_line(answer: Result<(), Refusal>) -> Result<Taken, Refusal>
    ensures { Taking answer result }
{
    match answer {
        Ok(()) => Ok(Taken::Line),
        Err(refusal) => Err(refusal),
    }
}

impl Draft {
    /// Nothing is read yet.
    pub fn new(alloc: Global) -> Draft
        ensures { place_of result ≡ start }
    {
        Draft {
            stage: Stage::Header,
            due: 0,
            entries: Vec::new(alloc),
            pools: Vec::new(alloc),
            processors: 0,
            cycle: Vec::new(alloc),
            rounds: 0,
            quantum: 0,
            console: 0,
            scripts: Vec::new(alloc),
            gates: Vec::new(alloc),
            processes: Vec::new(alloc),
            schedule: Vec::new(alloc),
            used: 0,
        }
    }

    fn header(&mut self, words: &[&[u8]]) -> Result<(), Refusal>
        ensures { Answers (place_of self.new) result
            (judged (spec.header_tests (views words.now)) (record (place_of self.old) { stage = stage.Count })) }
    {
        header_fault(words)?;
        self.stage = Stage::Count;
        Ok(())
    }

    fn count(&mut self, words: &[&[u8]]) -> Result<(), Refusal>
        ensures { Answers (place_of self.new) result
            (judged (spec.number_tests (codes "classes") 1 16 (views words.now)) (record (place_of self.old) { stage = stage.Classes; due = spec.number_in (views words.now) })) }
    {
        let count = number_in(words, b"classes", 1, MAX_CLASSES)?;
        self.stage = Stage::Classes;
        self.due = count as u8;
        Ok(())
    }

    fn class(&mut self, words: &[&[u8]]) -> Result<(), Refusal>
        ensures { Answers (place_of self.new) result
            (judged (spec.class_tests (place_of self.old).table (views words.now)) (spec.class_next (place_of self.old) (views words.now))) }
    {
        let Some(line) = class_words(words) else {
            return Err(Refusal::Code(Code::Form));
        };
        let pool = match pool_in(&line) {
            Ok(pool) => pool,
            Err(code) => return Err(Refusal::Code(code)),
        };
        let class = match new_entry(self.entries.as_slice(), line.name, line.label) {
            Ok(class) => class,
            Err(code) => return Err(Refusal::Code(code)),
        };
        self.entries.push(class)?;
        self.pools.push(pool)?;
        self.due = self.due.saturating_sub(1);
        self.stage = after_class(self.due);
        Ok(())
    }

    fn processors(&mut self, words: &[&[u8]]) -> Result<(), Refusal>
        ensures { Answers (place_of self.new) result
            (judged (spec.number_tests (codes "processors") 1 4 (views words.now)) (record (place_of self.old) { stage = stage.Cycle; processors = spec.number_in (views words.now) })) }
    {
        let count = number_in(words, b"processors", 1, MAX_PROCESSORS)?;
        self.stage = Stage::Cycle;
        self.processors = count as u8;
        Ok(())
    }

    fn cycle(&mut self, alloc: Global, words: &[&[u8]]) -> Result<(), Refusal>
        ensures { Answers (place_of self.new) result
            (judged (spec.cycle_tests (length (place_of self.old).table) (views words.now)) (record (place_of self.old) { stage = stage.Rounds; cycle = spec.numbers_in (views words.now) })) }
    {
        let [keyword, classes @ ..] = words else {
            return Err(Refusal::Code(Code::Form));
        };
        cycle_fault(keyword, classes, self.entries.len() as u64)?;
        let cycle = class_list(alloc, classes)?;
        self.stage = Stage::Rounds;
        self.cycle = cycle;
        Ok(())
    }

    fn rounds(&mut self, words: &[&[u8]]) -> Result<(), Refusal>
        ensures { Answers (place_of self.new) result
            (judged (spec.number_tests (codes "rounds") 1 4096 (views words.now)) (record (place_of self.old) { stage = stage.Quantum; rounds = spec.number_in (views words.now) })) }
    {
        let count = number_in(words, b"rounds", 1, MAX_ROUNDS)?;
        self.stage = Stage::Quantum;
        self.rounds = count as u32;
        Ok(())
    }

    fn quantum(&mut self, words: &[&[u8]]) -> Result<(), Refusal>
        ensures { Answers (place_of self.new) result
            (judged (spec.number_tests (codes "quantum") 1 256 (views words.now)) (record (place_of self.old) { stage = stage.Console; quantum = spec.number_in (views words.now) })) }
    {
        let count = number_in(words, b"quantum", 1, MAX_QUANTUM)?;
        self.stage = Stage::Console;
        self.quantum = count as u32;
        Ok(())
    }

    fn console(&mut self, words: &[&[u8]]) -> Result<(), Refusal>
        ensures { Answers (place_of self.new) result
            (judged (spec.number_tests (codes "console") 0 4096 (views words.now)) (record (place_of self.old) { stage = stage.Scripts; console = spec.number_in (views words.now) })) }
    {
        let count = number_in(words, b"console", 0, MAX_CONSOLE)?;
        self.stage = Stage::Scripts;
        self.console = count as u32;
        Ok(())
    }

    /// The class of a script's first line, by the words behind its keyword.
    fn script_class(&self, words: &[&[u8]]) -> Result<u8, Code>
        ensures code { first_code (spec.script_tests (place_of self.now) (views words.now)) ≡ result_err result }
        ensures class { IfOk result (λ c. (more : List (List ℕ)) → spec.script_next_place (place_of self.now) (views words.now) more ≡ spec.begun (place_of self.now) c more) }
    {
        let [class] = words else {
            return Err(Code::Form);
        };
        if is_misspelt(class) {
            return Err(Code::Number);
        }
        if value(class) >= self.entries.len() as u64 {
            return Err(Code::Range);
        }
        if self.scripts.len() >= MAX_SCRIPTS {
            return Err(Code::Limit);
        }
        Ok(byte(class))
    }

    /// Whether the script's class is in the table, at or below this one.
    fn is_usable(&self, script: &Script, class: u8) -> bool
        requires { class < length self.now.entries.items }
        ensures { result ≡ (is_class (config_in (place_of self.now)) script.now.class && at_or_below (place_of self.now).table script.now.class class) }
    {
        usize::from(script.class) < self.entries.len()
            && is_below(self.entries.as_slice(), script.class, class)
    }

    /// Whether the script is there, and its class is at or below this one.
    fn uses_script(&self, class: u8, script: u8) -> bool
        requires { class < length self.now.entries.items }
        ensures { result ≡ uses_script (config_in (place_of self.now)) class script }
    {
        match self.scripts.get(usize::from(script)) {
            Some(script) => self.is_usable(script, class),
            None => false,
        }
    }

    /// What is wrong with a gate behind its numbers.
    #[tactic(auto, unfolding(crate::specs::Rules::gate_line_tests))]
    fn gate_line_fault(&self, gate: &GateLine) -> Result<(), Code>
        requires { gate.now.class < length self.now.entries.items }
        ensures { first_code (spec.gate_line_tests (place_of self.now) gate.now) ≡ result_err result }
    {
        if !self.uses_script(gate.class, gate.script) {
            return Err(Code::Above);
        }
        if self.gates.len() >= MAX_GATES {
            return Err(Code::Limit);
        }
        Ok(())
    }

    /// The gate of these words, where its class and its script are there and its brackets in order.
    fn gate_in(
        &self,
        class: &[u8],
        script: &[u8],
        r1: &[u8],
        r2: &[u8],
        r3: &[u8],
    ) -> Option<GateLine>
        ensures { MatchOption result (gate_past_in (place_of self.now) class.now script.now r1.now r2.now r3.now ≡ true)
            (λ g. (gate_past_in (place_of self.now) class.now script.now r1.now r2.now r3.now ≡ false) × (g ≡ spec.gate_in class.now script.now r1.now r2.now r3.now) × (g.class < length self.now.entries.items)) }
    {
        if value(class) >= self.entries.len() as u64 {
            return None;
        }
        if value(script) >= self.scripts.len() as u64 {
            return None;
        }
        let brackets = brackets(r1, r2, r3)?;
        Some(GateLine {
            class: byte(class),
            script: byte(script),
            brackets,
        })
    }

    fn gate(&mut self, words: &[&[u8]]) -> Result<(), Refusal>
        ensures { Answers (place_of self.new) result (judged (spec.gate_tests (place_of self.old) (views words.now)) (spec.gate_next (place_of self.old) (views words.now))) }
    {
        let [class, script, r1, r2, r3] = words else {
            return Err(Refusal::Code(Code::Form));
        };
        if has_misspelt(words) {
            return Err(Refusal::Code(Code::Number));
        }
        let Some(gate) = self.gate_in(class, script, r1, r2, r3) else {
            return Err(Refusal::Code(Code::Range));
        };
        self.gate_line_fault(&gate)?;
        self.gates.push(gate)?;
        self.stage = Stage::Gates;
        Ok(())
    }

    /// What is wrong with a process behind its numbers.
    #[tactic(auto, unfolding(crate::specs::Rules::process_line_tests))]
    fn process_line_fault(&self, line: &ProcessLine) -> Result<(), Code>
        requires { line.now.class < length self.now.entries.items }
        ensures { first_code (spec.process_line_tests (place_of self.now) line.now) ≡ result_err result }
    {
        if !self.uses_script(line.class, line.script) {
            return Err(Code::Above);
        }
        if count_of(self.processes.as_slice(), line.processor, line.class) >= MAX_PROCESSES {
            return Err(Code::Fifth);
        }
        Ok(())
    }

    /// The process of these words, where its processor, its class, its script and its ring are there.
    fn process_in(
        &self,
        processor: &[u8],
        class: &[u8],
        script: &[u8],
        ring: &[u8],
    ) -> Option<ProcessLine>
        ensures { MatchOption result (process_past_in (place_of self.now) processor.now class.now script.now ring.now ≡ true)
            (λ x. (process_past_in (place_of self.now) processor.now class.now script.now ring.now ≡ false) × (x ≡ spec.process_in processor.now class.now script.now ring.now)
            × (x.class < length self.now.entries.items)) }
    {
        if value(processor) >= u64::from(self.processors) {
            return None;
        }
        if value(class) >= self.entries.len() as u64 {
            return None;
        }
        if value(script) >= self.scripts.len() as u64 {
            return None;
        }
        if value(ring) > MAX_RING {
            return None;
        }
        Some(ProcessLine {
            processor: byte(processor),
            class: byte(class),
            script: byte(script),
            ring: Ring(value(ring).min(MAX_RING) as u8),
        })
    }

    fn process(&mut self, words: &[&[u8]]) -> Result<(), Refusal>
        ensures { Answers (place_of self.new) result (judged (spec.process_tests (place_of self.old) (views words.now)) (spec.process_next (place_of self.old) (views words.now))) }
    {
        let [processor, class, script, ring] = words else {
            return Err(Refusal::Code(Code::Form));
        };
        if has_misspelt(words) {
            return Err(Refusal::Code(Code::Number));
        }
        let Some(line) = self.process_in(processor, class, script, ring) else {
            return Err(Refusal::Code(Code::Range));
        };
        self.process_line_fault(&line)?;
        self.processes.push(line)?;
        self.stage = Stage::Processes;
        Ok(())
    }

    fn events(&mut self, words: &[&[u8]]) -> Result<(), Refusal>
        ensures { Answers (place_of self.new) result (judged (spec.events_tests (place_of self.old) (views words.now)) (spec.events_next (place_of self.old) (views words.now))) }
    {
        if words.is_empty() {
            return Err(Refusal::Code(Code::Form));
        }
        if has_no_event(words) {
            return Err(Refusal::Code(Code::Form));
        }
        if has_misspelt_event(words) {
            return Err(Refusal::Code(Code::Number));
        }
        if has_outside_event(words, u64::from(self.processors), self.entries.len() as u64) {
            return Err(Refusal::Code(Code::Range));
        }
        let Some(total) = total_events(words, self.used) else {
            return Err(Refusal::Code(Code::Limit));
        };
        push_events(&mut self.schedule, words)?;
        self.stage = Stage::Items;
        self.used = total;
        Ok(())
    }

    /// Puts the item behind the others, where its events aren't past the limit.
    fn item(&mut self, item: Item, count: u64) -> Result<(), Refusal>
        ensures { Answers (place_of self.new) result (judged ((spec.is_past self.old.used count, code.Limit) ∷ []) (spec.with_items (place_of self.old) (item ∷ []) count)) }
    {
        if is_past(self.used, count) {
            return Err(Refusal::Code(Code::Limit));
        }
        self.schedule.push(item)?;
        self.stage = Stage::Items;
        self.used = self.used.saturating_add(count);
        Ok(())
    }

    fn mix(&mut self, words: &[&[u8]]) -> Result<(), Refusal>
        ensures { Answers (place_of self.new) result (judged (spec.mix_tests (place_of self.old) (views words.now)) (spec.mix_next (place_of self.old) (views words.now))) }
    {
        let [start, count] = words else {
            return Err(Refusal::Code(Code::Form));
        };
        if has_misspelt(words) {
            return Err(Refusal::Code(Code::Number));
        }
        let (start, count) = (value(start), value(count));
        if is_outside(1, MAX_EVENTS, count) {
            return Err(Refusal::Code(Code::Range));
        }
        let item = Item::Mix {
            start,
            count: count.min(MAX_EVENTS) as u32,
        };
        self.item(item, count)
    }

    fn sweep(&mut self, words: &[&[u8]]) -> Result<(), Refusal>
        ensures { Answers (place_of self.new) result (judged (spec.sweep_tests (place_of self.old) (views words.now)) (spec.sweep_next (place_of self.old) (views words.now))) }
    {
        let [rounds] = words else {
            return Err(Refusal::Code(Code::Form));
        };
        if is_misspelt(rounds) {
            return Err(Refusal::Code(Code::Number));
        }
        let rounds = value(rounds);
        if is_outside(1, MAX_EVENTS, rounds) {
            return Err(Refusal::Code(Code::Range));
        }
        let count = rounds * u64::from(self.quantum) * u64::from(self.processors);
        let item = Item::Sweep {
            rounds: rounds.min(MAX_EVENTS) as u32,
        };
        self.item(item, count)
    }

    fn end(&mut self, words: &[&[u8]]) -> Result<(), Refusal>
        ensures { Answers (place_of self.new) result (judged (spec.end_tests (views words.now)) (record (place_of self.old) { stage = stage.Ended })) }
    {
        if !words.is_empty() {
            return Err(Refusal::Code(Code::Form));
        }
        self.stage = Stage::Ended;
        Ok(())
    }

    fn of_kind(&mut self, kind: Kind, words: &[&[u8]]) -> Result<Taken, Refusal>
        ensures { TakesKind (place_of self.old) (place_of self.new) kind (views words.now) result }
    {
        match kind {
            Kind::Script => {
                let class = self.script_class(words)?;
                return Ok(Taken::Script { class });
            }
            Kind::Gate => as_line(self.gate(words)),
            Kind::Process => as_line(self.process(words)),
            Kind::Events => as_line(self.events(words)),
            Kind::Mix => as_line(self.mix(words)),
            Kind::Sweep => as_line(self.sweep(words)),
            Kind::End => as_line(self.end(words)),
        }
    }

    fn body(&mut self, words: &[&[u8]]) -> Result<Taken, Refusal>
        ensures { TakesBody (place_of self.old) (place_of self.new) (views words.now) result }
    {
        let [keyword, rest @ ..] = words else {
            return Ok(Taken::Line);
        };
        let Some(kind) = kind_of(keyword) else {
            return Err(Refusal::Code(Code::Form));
        };
        if !may_stand(self.stage, kind) {
            return Err(Refusal::Code(Code::Form));
        }
        self.of_kind(kind, rest)
    }

    /// Takes one more line of these words, which stands outside a script. It may begin one.
    pub fn line(&mut self, alloc: Global, words: &[&[u8]]) -> Result<Taken, Refusal>
        ensures { Takes (place_of self.old) (place_of self.new) (views words.now) result }
    {
        if words.is_empty() {
            return Ok(Taken::Line);
        }
        match self.stage {
            Stage::Header => as_line(self.header(words)),
            Stage::Count => as_line(self.count(words)),
            Stage::Classes => as_line(self.class(words)),
            Stage::Processors => as_line(self.processors(words)),
            Stage::Cycle => as_line(self.cycle(alloc, words)),
            Stage::Rounds => as_line(self.rounds(words)),
            Stage::Quantum => as_line(self.quantum(words)),
            Stage::Console => as_line(self.console(words)),
            Stage::Ended => Err(Refusal::Code(Code::Form)),
            Stage::Scripts => self.body(words),
            Stage::Gates => self.body(words),
            Stage::Processes => self.body(words),
            Stage::Items => self.body(words),
        }
    }
}
