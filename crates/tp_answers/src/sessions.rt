//! All sessions.

ghost use Rattle.std.specs.Prelude.{◌≡◌, ◌<◌, [], Some, length, position, remove, slice_get, OnOk};
ghost use Rattle.std.specs.Borrow.{sem};
ghost use Rattle.tp_answers.specs.Sessions.{Session, is_of, with_session};
ghost use Rattle.tp_answers.specs.OpenSessions.{session_of};

use crate::session::OpenSession;
use indexmap::IndexMap;
use std::alloc::{AllocError, Global};
use std::marker::Model;
use tp_requests::Name;

/// The open sessions by name. A contract sees the list of them, in the order in which they were opened.
#[derive(Drop)]
pub struct Sessions {
    by_name: IndexMap<Name, OpenSession>,
}

impl Model for Sessions {
    ghost use Rattle.std.specs.Prelude.{List, map};
    ghost use Rattle.tp_answers.specs.Sessions.{Session};
    ghost use Rattle.tp_answers.specs.OpenSessions.{session_of};

    ghost Value = { List Session };

    ghost view = { λ sessions. map (λ entry. session_of entry.0.items entry.1) sessions.by_name.entries };
}

impl Sessions {
    ghost use Rattle.tp_answers.specs.Lending.{LendsSession};

    /// None is open.
    pub fn new(alloc: Global) -> Sessions
        ensures { result ≡ [] }
    {
        Sessions {
            by_name: IndexMap::new(alloc),
        }
    }

    /// How many are open.
    pub fn len(&self) -> usize
        ensures { result ≡ length self.now }
    {
        self.by_name.len()
    }

    /// The place of the session of a name, in the order of opening.
    pub fn find(&self, name: &Name) -> Option<usize>
        ensures { result ≡ position (is_of name.now.items) self.now }
    {
        self.by_name.get_index_of(name)
    }

    /// The name of the session at a place.
    pub fn name_at(&self, index: usize) -> &Name
        requires { index < length self.now }
        ensures { (s : Session) → slice_get self.now index ≡ Some s → s.name ≡ result.now.items }
    {
        match self.by_name.get_index(index) {
            Some((name, _)) => name,
            None => unreachable!(),
        }
    }

    /// The session at a place.
    pub fn at_mut(&mut self, index: usize) -> &mut OpenSession
        requires { index < length self.old }
        ensures* lends { sem 𝓛 (LendsSession self.entry index result) }
        ensures value { (s : Session) → slice_get self.old index ≡ Some s → s ≡ session_of s.name result.now }
    {
        &mut self.by_name[index]
    }

    /// Opens a session, behind all others; one of this name is replaced, and keeps its place.
    pub(crate) fn put(&mut self, name: Name, kept: OpenSession) -> Result<(), AllocError>
        ensures { OnOk result (self.new ≡ with_session (session_of name.items kept) self.old) }
    {
        self.by_name.insert(name, kept)?;
        Ok(())
    }

    /// Opens a session, behind all others, or replaces the one of its name.
    pub(crate) fn set(
        &mut self,
        place: Option<usize>,
        name: Name,
        kept: OpenSession,
    ) -> Result<(), AllocError>
        requires { place ≡ position (is_of name.items) self.old }
        ensures { OnOk result (self.new ≡ with_session (session_of name.items kept) self.old) }
    {
        match place {
            Some(index) => {
                *self.at_mut(index) = kept;
                Ok(())
            }
            None => self.put(name, kept),
        }
    }

    /// The session at a place ends. The others keep their order.
    pub(crate) fn remove(&mut self, index: usize)
        ensures { self.new ≡ remove self.old index }
    {
        self.by_name.shift_remove_index(index);
    }
}
