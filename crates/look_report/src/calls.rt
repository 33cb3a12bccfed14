// The calls that are open, and how often each routine was called.
use crate::names::Names;
use call_trace::set_name;
use indexmap::IndexMap;
use look_text::{Piece, add_line};
use mix_bits::NoMemory;
use std::alloc::Global;
use trace_lines::{Crossing, Event};

/// A routine and who calls it.
#[derive(Clone, Copy, PartialEq, Eq, Hash)]
struct Route {
    /// The innermost routine that was open, or none in the program itself.
    caller: Option<u32>,
    /// The words for the set of the caller and that of the routine.
    from: &'static str,
    to: &'static str,
    target: u32,
}

/// The targets of the calls that are open, the innermost last, and how often each route was taken.
#[derive(Drop)]
pub struct Calls {
    open: Vec<u32>,
    counts: IndexMap<Route, u32>,
}

impl Calls {
    pub fn new(alloc: Global) -> Calls {
        Calls {
            open: Vec::new(alloc),
            counts: IndexMap::new(alloc),
        }
    }

    /// How many calls are open around an event: a return stands as deep as its call.
    pub fn depth(&self, event: &Event) -> u32 {
        let open = match event {
            Event::Returned(_, _) => self.open.len().saturating_sub(1),
            _ => self.open.len(),
        };
        u32::try_from(open).unwrap_or(u32::MAX)
    }

    /// Opens or ends the call of an event.
    pub fn follow(&mut self, event: &Event) -> Result<(), NoMemory> {
        match event {
            Event::Called(call) => self.enter(call),
            Event::Returned(_, _) => {
                let _target = self.open.pop();
                Ok(())
            }
            _ => Ok(()),
        }
    }

    fn enter(&mut self, call: &Crossing) -> Result<(), NoMemory> {
        let route = Route {
            caller: self.open.last().copied(),
            from: set_name(call.kind.caller()),
            to: set_name(call.kind.callee()),
            target: call.target,
        };
        let before = self.counts.get(&route).copied().unwrap_or(0);
        self.counts.insert(route, before.saturating_add(1))?;
        self.open.push(call.target)?;
        Ok(())
    }

    /// A line for each route, those that were taken most first.
    pub fn table(&mut self, alloc: Global, names: &Names) -> Result<Vec<u8>, NoMemory> {
        self.counts.sort_by_key(|_, count| u32::MAX - *count)?;
        let mut text = Vec::new(alloc);
        for (route, count) in self.counts.iter() {
            add_route(&mut text, names, route, *count)?;
        }
        Ok(text)
    }
}

/// `COUNT FROM CALLER to TO TARGET`
fn add_route(text: &mut Vec<u8>, names: &Names, route: &Route, count: u32) -> Result<(), NoMemory> {
    add_line(
        text,
        &[
            Piece::Number(count),
            Piece::Text(" "),
            Piece::Text(route.from),
            Piece::Text(" "),
            caller_name(names, route.caller),
            Piece::Text(" to "),
            Piece::Text(route.to),
            Piece::Text(" "),
            names.name(route.target),
            Piece::Text("\n"),
        ],
    )
}

/// The name of a routine that calls, or of the program.
fn caller_name(names: &Names, caller: Option<u32>) -> Piece {
    match caller {
        Some(caller) => names.name(caller),
        None => Piece::Text("the program"),
    }
}
