//! The handle that C holds.
ghost use Rattle.std.specs.Prelude.{◌≡◌, true, Option, Some, None, is_some};
ghost use Rattle.std.specs.Coded.{coded_option};
ghost use Rattle.cola_handle.specs.Handle.{IsInside};
ghost use Rattle.cola_handle.specs.declared.session.Session.{Session};
ghost use Rattle.cola_handle.specs.contracts.session.Session.{the_row};

use crate::loose::Loose;
use crate::session::Session;
use std::alloc::Global;
use std::marker::Model;

/// The session behind a pointer that C holds, where there is one.
#[repr(C)]
#[derive(Drop)]
pub struct Owned {
    at: *mut u8,
    pub ghost session: { Option Session } by { coded_option the_row.coded },
}

impl Model for Owned {
    ghost use Rattle.cola_handle.specs.Handle.{owned_at};

    ghost also_owns = { λ h. owned_at h.at h.session };
}

/// A handle, as C holds it: closed, or with a session behind it.
#[repr(C)]
#[derive(Drop)]
pub struct Cola {
    is_open: bool,
    owned: Owned,
    ghost tied: { is_some owned.session ≡ is_open },
}

fn seal(loose: Loose<Session, Global>) -> Owned
    ensures { result.session ≡ Some loose.value }
{
    let Loose { at, alloc: _ } = loose;
    Owned { at: at as *mut u8 }
}

fn empty() -> Owned
    ensures { result.session ≡ None }
{
    Owned {
        at: std::ptr::null_mut(),
    }
}

fn unseal(owned: Owned, alloc: Global) -> Loose<Session, Global>
    requires { is_some owned.session ≡ true }
    ensures { owned.session ≡ Some result.value }
{
    let Owned { at } = owned;
    let at = at as *mut Session;
    Loose { at, alloc }
}

impl Cola {
    fn of(session: Box<Session>) -> Cola
        ensures { result.owned.session ≡ Some session.value }
    {
        Cola {
            is_open: true,
            owned: seal(Loose::of(session)),
        }
    }

    fn closed() -> Cola
        ensures { result.owned.session ≡ None }
    {
        Cola {
            is_open: false,
            owned: empty(),
        }
    }

    fn into_session(self, alloc: Global) -> Option<Box<Session>>
        ensures { IsInside self.owned.session result }
    {
        let Cola { is_open, owned } = self;
        if is_open {
            Some(unseal(owned, alloc).into_box())
        } else {
            None
        }
    }

    /// Whether there is a session behind it.
    pub fn is_open(&self) -> bool
        ensures { result ≡ is_some self.now.owned.session }
    {
        self.is_open
    }

    /// Takes the session out, and leaves the handle closed.
    pub fn take(&mut self, alloc: Global) -> Option<Box<Session>>
        ensures taken { IsInside self.old.owned.session result }
        ensures left { self.new.owned.session ≡ None }
    {
        let whole = std::mem::replace(self, Cola::closed());
        whole.into_session(alloc)
    }

    /// Puts a session in. One that was there is dropped.
    pub fn put(&mut self, alloc: Global, session: Box<Session>)
        ensures { self.new.owned.session ≡ Some session.value }
    {
        let whole = std::mem::replace(self, Cola::of(session));
        let _old = whole.into_session(alloc);
    }
}
