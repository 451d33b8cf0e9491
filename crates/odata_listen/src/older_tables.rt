//! Handles of the tables that the hub has, and of those before them. These are dropped in parts once no reply needs them any more.
use std::alloc::Global;
use std::collections::VecDeque;
use std::rc::Rc;
use table_store::{Catalog, Remains};

/// How many parts are dropped before the clock is looked at.
const PARTS: u32 = 8;

/// The tables that the hub has, those before them that replies may need, and what is left of those that none needs.
#[derive(Drop)]
pub struct OlderTables {
    alloc: Global,
    current: Option<Rc<Catalog>>,
    older: VecDeque<Rc<Catalog>>,
    remains: Option<Remains>,
}

impl OlderTables {
    /// Returns no tables.
    pub fn new(alloc: Global) -> OlderTables {
        OlderTables {
            alloc,
            current: None,
            older: VecDeque::new(alloc),
            remains: None,
        }
    }

    /// Notes that the hub has `tables` from now on. If memory ran out, those before them go at once when no reply needs them.
    pub fn replace(&mut self, tables: Rc<Catalog>) {
        if let Some(before) = self.current.replace(tables) {
            let _ = self.older.push_back(before);
        }
    }

    /// Takes one of the older tables. Returns what is left of it, or `None` if a reply needs it.
    fn unneeded(&mut self) -> Option<Remains> {
        let tables = self.older.pop_front()?;
        match Rc::try_unwrap(tables) {
            Ok(catalog) => Some(catalog.into_remains(self.alloc)),
            Err(tables) => {
                let _ = self.older.push_back(tables);
                None
            }
        }
    }

    /// Drops some parts of what no reply needs.
    pub fn drop_some(&mut self) {
        let Some(mut remains) = self.remains.take() else {
            self.remains = self.unneeded();
            return;
        };
        for _part in 0..PARTS {
            if !remains.drop_part() {
                return;
            }
        }
        self.remains = Some(remains);
    }

    /// Returns true if there is more to drop at once.
    pub fn is_dropping(&self) -> bool {
        self.remains.is_some()
    }
}
