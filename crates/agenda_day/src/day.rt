// A day at a quay: events are noted as they become known, and taken in the order of their times.
use holders::agenda::Agenda;
use holders::holder::Holder;
use holders::key::Key;
use ordered::agenda::OrderedAgenda;
use std::io;

#[derive(Clone, Copy)]
struct Event {
    hour: u8,
    minute: u8,
    what: &'static str,
}

const EVENTS: [Event; 8] = [
    Event {
        hour: 14,
        minute: 30,
        what: "the freighter sails",
    },
    Event {
        hour: 6,
        minute: 15,
        what: "the first crane is manned",
    },
    Event {
        hour: 9,
        minute: 0,
        what: "the freighter moors",
    },
    Event {
        hour: 9,
        minute: 0,
        what: "the ferry moors",
    },
    Event {
        hour: 22,
        minute: 45,
        what: "the lights go out",
    },
    Event {
        hour: 6,
        minute: 0,
        what: "the gate opens",
    },
    Event {
        hour: 12,
        minute: 20,
        what: "the ferry sails",
    },
    Event {
        hour: 9,
        minute: 0,
        what: "the customs office opens",
    },
];

// Notes an event by its number in the table, in the lowest spare place; of equal times, what is noted first comes first.
fn note(agenda: &mut OrderedAgenda, number: u32, event: Event) {
    let place = agenda.spare();
    let time = u32::from(event.hour) * 60 + u32::from(event.minute);
    agenda.write(place, number);
    agenda.key_place(
        place,
        Key {
            time,
            serial: number,
        },
    );
}

pub(crate) fn show_day(rt: &impl Print) -> io::Result<()> {
    let mut agenda = OrderedAgenda::new();
    for (number, event) in (0u32..).zip(EVENTS) {
        note(&mut agenda, number, event);
    }
    // until no event is left; the range says that the loop ends
    for _ in 0..OrderedAgenda::count() {
        let place = agenda.first();
        let Some(key) = agenda.key(place) else {
            break;
        };
        let hour = key.time / 60;
        let minute = key.time % 60;
        let what = EVENTS
            .get(agenda.get(place) as usize)
            .map_or("nothing", |event| event.what);
        println!(rt; "{hour:02}:{minute:02} {what}")?;
        agenda.unkey(place);
    }
    Ok(())
}
