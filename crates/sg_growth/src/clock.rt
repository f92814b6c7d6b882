// The time, and when the next event of each edge, each hub and each inner region comes.
//
// Of each edge, hub and inner region one event counts, its soonest; what was entered for it before is
// passed over when it comes. An event takes the same time for any number of edges, but for the agenda.
use sg_slots::{Agenda, Event, Store, Subject, set_entry};
use std::alloc::Global;

/// A time that never comes.
pub const NEVER: i64 = i64::MAX;

// The last time that comes.
const LAST: i64 = NEVER - 1;

/// The time, with what waits.
#[derive(Drop)]
pub struct Clock {
    now: i64,
    // What comes after this time is not entered.
    horizon: i64,
    agenda: Agenda,
    // For each edge the time of the event that waits for one of its arcs, and for each hub and region that of
    // its own; the list of regions goes as far as was needed.
    edges: Store<i64>,
    hubs: Store<i64>,
    regions: Store<i64>,
}

// The time that is there; none is before the first of all.
fn time_at(times: &[i64], place: u32) -> i64 {
    match times.get(place as usize) {
        Some(time) => *time,
        None => i64::MIN,
    }
}

// Clears the time there, if it is this one.
fn is_due(times: &mut [i64], place: u32, time: i64) -> bool {
    let is_due = time_at(times, place) == time;
    if is_due {
        set_entry(times, place, NEVER);
    }
    is_due
}

impl Clock {
    /// Time 0, at which nothing waits.
    pub fn new(alloc: Global, edges: usize, hubs: usize) -> Clock {
        Clock {
            now: 0,
            horizon: LAST,
            agenda: Agenda::new(alloc),
            edges: Store::filled(alloc, NEVER, edges),
            hubs: Store::filled(alloc, NEVER, hubs),
            regions: Store::new(alloc),
        }
    }

    /// Whether a list found no memory.
    pub fn is_short(&self) -> bool {
        let are_times = self.edges.is_short() | self.hubs.is_short() | self.regions.is_short();
        are_times | self.agenda.is_short()
    }

    /// Time 0 again, at which nothing waits.
    pub fn restart(&mut self) {
        self.now = 0;
        self.horizon = LAST;
        self.agenda.restart(0);
        self.edges.items.fill(NEVER);
        self.hubs.items.fill(NEVER);
        self.regions.items.fill(NEVER);
    }

    /// Sets the time, and forgets all events that wait. What comes after the horizon is not entered from now on. Cost:
    /// linear in the events that wait.
    pub fn set(&mut self, now: i64, horizon: i64) {
        for list in 0..self.agenda.lists() {
            self.forget(list);
        }
        self.now = now;
        self.horizon = horizon.min(LAST);
        self.agenda.restart(now);
    }

    // Nothing waits that is in a list of the agenda.
    fn forget(&mut self, list: usize) {
        for event in self.agenda.list(list) {
            match event.subject {
                Subject::Arc(dart) => set_entry(&mut self.edges.items, dart / 2, NEVER),
                Subject::Hub(hub) => set_entry(&mut self.hubs.items, hub, NEVER),
                Subject::Region(name) => set_entry(&mut self.regions.items, name, NEVER),
                Subject::Root(_) => {}
            }
        }
    }

    /// Sets the time of a clock at which nothing waits yet.
    pub fn begin_at(&mut self, now: i64) {
        self.now = now;
    }

    /// The time.
    pub fn now(&self) -> i64 {
        self.now
    }

    /// When the event of an arc or of its way back comes that waits.
    pub fn due(&self, dart: u32) -> i64 {
        time_at(&self.edges.items, dart / 2)
    }

    /// Enters the event of an arc, if it comes before what waits at the arc or at its way back.
    pub fn expect_arc(&mut self, dart: u32, time: i64) {
        if time <= self.horizon && time < time_at(&self.edges.items, dart / 2) {
            set_entry(&mut self.edges.items, dart / 2, time);
            self.agenda.push(Event {
                time,
                subject: Subject::Arc(dart),
            });
        }
    }

    /// Enters the event of a hub, if it comes before what waits there.
    pub fn expect_hub(&mut self, hub: u32, time: i64) {
        if time <= self.horizon && time < time_at(&self.hubs.items, hub) {
            set_entry(&mut self.hubs.items, hub, time);
            self.agenda.push(Event {
                time,
                subject: Subject::Hub(hub),
            });
        }
    }

    /// Enters the event of an inner region, which comes so much later, if it comes before what waits there.
    pub fn expect_region(&mut self, name: u32, left: i64) {
        let time = self.now.wrapping_add(left);
        if time > self.horizon {
            return;
        }
        let place = name as usize;
        if place >= self.regions.items.len() {
            self.regions.resize(place + 1, NEVER);
        }
        if time < time_at(&self.regions.items, name) {
            set_entry(&mut self.regions.items, name, time);
            self.agenda.push(Event {
                time,
                subject: Subject::Region(name),
            });
        }
    }

    /// Enters the event of a cycle at rest, which becomes a root so much later.
    pub fn expect_root(&mut self, name: u32, left: i64) {
        self.agenda.push(Event {
            time: self.now.wrapping_add(left),
            subject: Subject::Root(name),
        });
    }

    /// Takes the next event out, unless it comes after a time.
    pub fn pop(&mut self, until: i64) -> Option<Event> {
        self.agenda.pop(until)
    }

    /// Goes on to an event, unless another was entered in its place.
    pub fn begin(&mut self, event: &Event) -> bool {
        let counts = match event.subject {
            Subject::Arc(dart) => is_due(&mut self.edges.items, dart / 2, event.time),
            Subject::Hub(hub) => is_due(&mut self.hubs.items, hub, event.time),
            Subject::Region(name) => is_due(&mut self.regions.items, name, event.time),
            Subject::Root(_) => true,
        };
        if counts {
            self.now = event.time;
        }
        counts
    }
}
