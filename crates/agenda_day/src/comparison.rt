// Both agendas go through the same drawn changes and are asked the same questions.
ghost use Rattle.std.specs.Prelude.{◌≡◌, Decides};
ghost use Rattle.agenda_day.specs.Changes.{numbers_after, keys_after, SameAnswers};

use crate::change::Change;
use holders::agenda::Agenda;
use holders::holder::Holder;
use holders::key::Key;
use holders::table::TableAgenda;
use ordered::agenda::OrderedAgenda;

// A linear congruential generator.
#[derive(Drop)]
struct Generator {
    state: u32,
}

impl Generator {
    fn draw(&mut self) -> u32 {
        self.state = self.state.wrapping_mul(1664525).wrapping_add(1013904223);
        self.state >> 8
    }

    // Six places lie past the end of an agenda, and few keys differ, so that all cases come up.
    fn draw_place(&mut self) -> u32 {
        self.draw() % 70
    }

    fn draw_change(&mut self) -> Change {
        let place = self.draw_place();
        match self.draw() % 8 {
            0..=3 => {
                let time = self.draw() % 16;
                let serial = self.draw() % 4;
                let key = Key { time, serial };
                Change::KeyPlace { place, key }
            }
            4..=6 => Change::Unkey { place },
            _ => {
                let number = self.draw();
                Change::Put { place, number }
            }
        }
    }
}

fn apply<A: Agenda>(agenda: &mut A, change: Change)
    ensures numbers { A.Holder.row agenda.new ≡ numbers_after change (A.Holder.row agenda.old) }
    ensures keys { A.Agenda.keys agenda.new ≡ keys_after change (A.Agenda.keys agenda.old) }
{
    match change {
        Change::Put { place, number } => agenda.write(place, number),
        Change::KeyPlace { place, key } => agenda.key_place(place, key),
        Change::Unkey { place } => agenda.unkey(place),
    }
}

// Whether two agendas answer alike which place is first, which is spare, and what a place holds and bears.
fn answer_alike<A: Agenda, B: Agenda>(one: &A, other: &B, place: u32) -> bool
    ensures { Decides result (SameAnswers (A.Holder.row one.now) (A.Agenda.keys one.now)
        (B.Holder.row other.now) (B.Agenda.keys other.now) place) }
{
    one.first() == other.first()
        && one.spare() == other.spare()
        && one.get(place) == other.get(place)
        && one.key(place) == other.key(place)
}

// In how many of the rounds, each a change and then questions, the two agendas answer alike.
pub(crate) fn rounds_alike(rounds: u32) -> u32
    ensures { result ≡ rounds }
{
    let mut table = TableAgenda::new();
    let mut ordered = OrderedAgenda::new();
    let mut generator = Generator { state: 1 };
    let mut alike: u32 = 0;
    // no chain, since each round changes the generator and both agendas
    for _ in 0..rounds {
        let change = generator.draw_change();
        apply(&mut table, change);
        apply(&mut ordered, change);
        if answer_alike(&table, &ordered, generator.draw_place()) {
            alike += 1;
        }
    }
    alike
}
