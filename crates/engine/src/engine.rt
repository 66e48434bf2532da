// A collector with any holder and any agenda: the calls.
ghost use Rattle.operations.specs.Parts.{state_of};

use crate::performs::Performs;
use calls::Refusal;
use holders::agenda::Agenda;
use holders::holder::Holder;
use holders::key::Key;
use operations::parts::{Parts, first_keyed, found, full, lacks_reference, lacks_word, too_large};

#[derive(Drop)]
pub struct Engine<H: Holder + Drop, A: Agenda + Drop> {
    pub parts: Parts<H, A>,
    pub clock: u32,
    pub serial: u32,
}

// A refusal that a part tells goes up by `?`. That a record is nil is refused by `let .. else` in each call that needs one,
// and what only a test tells by an `if`: so each call reads as the conditions of its refusals, in their order.
impl<H: Holder + Drop, A: Agenda + Drop> Performs for Engine<H, A> {
    ghost state = { λ e. state_of H.Holder.row A.Holder.row A.Agenda.keys e.parts e.clock e.serial };

    fn make(&mut self, place: u32, references: u32, words: u32) -> Result<(), Refusal> {
        self.parts.held(place)?;
        if too_large(references, words) {
            return Err(Refusal::TooLarge);
        }
        let number = self
            .parts
            .collector
            .make(references, words)
            .ok_or(Refusal::NoRoom)?;
        self.parts.overwrite(place, number);
        Ok(())
    }

    fn load(&mut self, into: u32, from: u32, reference: u32) -> Result<(), Refusal> {
        self.parts.held(into)?;
        let named = self.parts.held(from)?;
        let collector = &self.parts.collector;
        let Some(block) = found(collector, named) else {
            return Err(Refusal::Nil);
        };
        let referred = collector
            .reference(block, reference)
            .ok_or(Refusal::NoSuchReference)?;
        let number = collector.current(referred);
        self.parts.overwrite(into, number);
        Ok(())
    }

    fn store(&mut self, into: u32, reference: u32, from: u32) -> Result<(), Refusal> {
        let named = self.parts.held(into)?;
        let stored = self.parts.held(from)?;
        let Some(block) = found(&self.parts.collector, named) else {
            return Err(Refusal::Nil);
        };
        if lacks_reference(&self.parts.collector, block, reference) {
            return Err(Refusal::NoSuchReference);
        }
        let number = self.parts.collector.current(stored);
        self.parts.collector.store(block, reference, number);
        Ok(())
    }

    fn read(&self, from: u32, word: u32) -> Result<u32, Refusal> {
        let named = self.parts.held(from)?;
        let Some(block) = found(&self.parts.collector, named) else {
            return Err(Refusal::Nil);
        };
        self.parts
            .collector
            .word(block, word)
            .ok_or(Refusal::NoSuchWord)
    }

    fn write(&mut self, into: u32, word: u32, value: u32) -> Result<(), Refusal> {
        let named = self.parts.held(into)?;
        let Some(block) = found(&self.parts.collector, named) else {
            return Err(Refusal::Nil);
        };
        if lacks_word(&self.parts.collector, block, word) {
            return Err(Refusal::NoSuchWord);
        }
        self.parts.collector.set_word(block, word, value);
        Ok(())
    }

    fn copy(&mut self, into: u32, from: u32) -> Result<(), Refusal> {
        self.parts.held(into)?;
        let named = self.parts.held(from)?;
        let copied = self.parts.collector.current(named);
        self.parts.overwrite(into, copied);
        Ok(())
    }

    fn clear(&mut self, place: u32) -> Result<(), Refusal> {
        self.parts.held(place)?;
        self.parts.overwrite(place, 0);
        Ok(())
    }

    fn same(&self, left: u32, right: u32) -> Result<bool, Refusal> {
        let one = self.parts.held(left)?;
        let other = self.parts.held(right)?;
        Ok(self.parts.collector.current(one) == self.parts.collector.current(other))
    }

    fn shape(&self, place: u32) -> Result<(u32, u32), Refusal> {
        let named = self.parts.held(place)?;
        let Some(block) = found(&self.parts.collector, named) else {
            return Err(Refusal::Nil);
        };
        Ok(self.parts.collector.shape(block))
    }

    fn schedule(&mut self, time: u32, place: u32) -> Result<(), Refusal> {
        let named = self.parts.held(place)?;
        let Some(block) = found(&self.parts.collector, named) else {
            return Err(Refusal::Nil);
        };
        if full(&self.parts.agenda) {
            return Err(Refusal::AgendaFull);
        }
        if time < self.clock {
            return Err(Refusal::TimePassed);
        }
        let serial = self.serial;
        let next = serial.checked_add(1).ok_or(Refusal::SerialsUsedUp)?;
        let spare = self.parts.agenda.spare();
        let old = self.parts.agenda.get(spare);
        self.parts.collector.barrier(old);
        self.parts.agenda.write(spare, block);
        self.parts.agenda.key_place(spare, Key { time, serial });
        self.serial = next;
        Ok(())
    }

    fn next(&mut self, into: u32) -> Result<u32, Refusal> {
        self.parts.held(into)?;
        let (key, place) = first_keyed(&self.parts.agenda).ok_or(Refusal::NoEvent)?;
        let named = self.parts.agenda.get(place);
        let block = self.parts.collector.current(named);
        self.parts.overwrite(into, block);
        self.parts.collector.barrier(named);
        self.parts.agenda.write(place, 0);
        self.parts.agenda.unkey(place);
        self.clock = key.time;
        Ok(key.time)
    }

    fn begin(&mut self) -> Result<(), Refusal> {
        if self.parts.collector.is_running() {
            return Err(Refusal::CollectionRuns);
        }
        self.parts.collector.begin();
        Ok(())
    }

    fn step(&mut self, units: u32) -> Result<(u32, u32, bool), Refusal> {
        if !self.parts.collector.is_running() {
            return Err(Refusal::NoCollection);
        }
        let done = self.parts.spend(units);
        let collector = &self.parts.collector;
        Ok((done, collector.units(), collector.is_running()))
    }

    fn count(&self) -> (u32, u32, u32, u32) {
        let collector = &self.parts.collector;
        let current = collector.current_blocks();
        // an occupied block that is not current is a husk: so each slot is looked at once
        let husks = collector.occupied_blocks() - current;
        (
            current,
            husks,
            collector.uncut_pages(),
            collector.closed_pages(),
        )
    }
}
