//! The handle of a load, which C holds.
ghost use Rattle.std.specs.Prelude.{◌≡◌, true, Option, Some, None, is_some};
ghost use Rattle.std.specs.Coded.{coded_option};
ghost use Rattle.cola_tools.specs.Loading.{Loads};
ghost use Rattle.cola_tools.specs.contracts.loading.Load.{the_row};
ghost use Rattle.cola_c.specs.LoadHandle.{IsLoadInside};

use cola_handle::Loose;
use cola_tools::Load;
use std::alloc::Global;
use std::marker::Model;

/// The load behind a pointer that C holds, where there is one.
#[repr(C)]
#[derive(Drop)]
pub struct OwnedLoad {
    at: *mut u8,
    pub ghost load: { Option Loads } by { coded_option the_row.coded },
}

impl Model for OwnedLoad {
    ghost use Rattle.cola_c.specs.LoadHandle.{load_at};

    ghost also_owns = { λ h. load_at h.at h.load };
}

/// A handle of a load, as C holds it: closed, or with a load behind it.
#[repr(C)]
#[derive(Drop)]
pub struct LoadHandle {
    is_open: bool,
    owned: OwnedLoad,
    ghost tied: { is_some owned.load ≡ is_open },
}

fn seal(loose: Loose<Load, Global>) -> OwnedLoad
    ensures { result.load ≡ Some loose.value }
{
    let Loose { at, alloc: _ } = loose;
    OwnedLoad { at: at as *mut u8 }
}

fn empty() -> OwnedLoad
    ensures { result.load ≡ None }
{
    OwnedLoad {
        at: std::ptr::null_mut(),
    }
}

fn unseal(owned: OwnedLoad, alloc: Global) -> Loose<Load, Global>
    requires { is_some owned.load ≡ true }
    ensures { owned.load ≡ Some result.value }
{
    let OwnedLoad { at } = owned;
    let at = at as *mut Load;
    Loose { at, alloc }
}

impl LoadHandle {
    fn of(load: Box<Load>) -> LoadHandle
        ensures { result.owned.load ≡ Some load.value }
    {
        LoadHandle {
            is_open: true,
            owned: seal(Loose::of(load)),
        }
    }

    fn closed() -> LoadHandle
        ensures { result.owned.load ≡ None }
    {
        LoadHandle {
            is_open: false,
            owned: empty(),
        }
    }

    fn into_load(self, alloc: Global) -> Option<Box<Load>>
        ensures { IsLoadInside self.owned.load result }
    {
        let LoadHandle { is_open, owned } = self;
        if is_open {
            Some(unseal(owned, alloc).into_box())
        } else {
            None
        }
    }

    /// Whether there is a load behind it.
    pub fn is_open(&self) -> bool
        ensures { result ≡ is_some self.now.owned.load }
    {
        self.is_open
    }

    /// Takes the load out, and leaves the handle closed.
    pub fn take(&mut self, alloc: Global) -> Option<Box<Load>>
        ensures taken { IsLoadInside self.old.owned.load result }
        ensures left { self.new.owned.load ≡ None }
    {
        let whole = std::mem::replace(self, LoadHandle::closed());
        whole.into_load(alloc)
    }

    /// Puts a load in. One that was there is dropped.
    pub fn put(&mut self, alloc: Global, load: Box<Load>)
        ensures { self.new.owned.load ≡ Some load.value }
    {
        let whole = std::mem::replace(self, LoadHandle::of(load));
        let _old = whole.into_load(alloc);
    }
}
