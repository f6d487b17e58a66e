// A set of authentication methods in order.
ghost use Rattle.std.specs.Prelude.{◌≡◌, ◌<◌, ◌^◌, false, [], ◌∷◌, ◌++◌, length, map, IfOk, IfErr};
ghost use Rattle.ssh_wire.specs.Names.{joined};
ghost use Rattle.ssh_wire.specs.Methods.{method_name, without, pushed, pushed_all, named, has};
ghost use Rattle.ssh_wire.specs.Methods.{all_methods, server_methods, NoDoubles};
ghost use Rattle.ssh_wire.specs.declared.error.WireError.TheVariants.{NoMemory};

use crate::{MethodKind, NameList, Text, WireError};
use std::alloc::Global;
use std::marker::Model;

/// Methods in order, none twice. A clause sees the list. It is held in place and takes no memory.
#[derive(Clone, Copy, Debug)]
pub struct MethodSet {
    kinds: [MethodKind; 6],
    count: usize,
}

impl Model for MethodSet {
    ghost use Rattle.std.specs.Prelude.{List, length, take};
    ghost use Rattle.ssh_wire.specs.declared.method.MethodKind.{MethodKind};
    ghost use Rattle.ssh_wire.specs.MethodPlaces.{IsHeld, placed};

    ghost Value = { List MethodKind };

    ghost view = { λ set. take set.count set.kinds };

    ghost invariant = { λ set. IsHeld set.count set.kinds };

    ghost inverse = { λ methods. record { kinds = placed methods; count = length methods } };

    ghost inverse_ok = { λ set held i. record {
      kinds = held.is_placed i;
      count = held.counted i;
    } };
}

impl MethodSet {
    /// No method.
    pub fn empty() -> MethodSet
        ensures { result ≡ [] }
    {
        MethodSet {
            kinds: [MethodKind::None; 6],
            count: 0,
        }
    }

    /// All methods, which a client can try.
    pub fn client_supported() -> MethodSet
        ensures { result ≡ all_methods }
    {
        MethodSet {
            kinds: [
                MethodKind::None,
                MethodKind::Password,
                MethodKind::PublicKey,
                MethodKind::HostBased,
                MethodKind::KeyboardInteractive,
                MethodKind::GssapiWithMic,
            ],
            count: 6,
        }
    }

    /// The methods that a server can offer: all but GSS-API.
    pub fn server_supported() -> MethodSet
        ensures { result ≡ server_methods }
    {
        let mut methods = MethodSet::client_supported();
        methods.remove(MethodKind::GssapiWithMic);
        methods
    }

    /// The methods in order.
    pub fn as_slice(&self) -> &[MethodKind]
        ensures items { result.now ≡ self.now }
        ensures distinct { NoDoubles result.now }
    {
        &self.kinds[..self.count]
    }

    /// Adds a method that is not there at the end.
    fn append(&mut self, method: MethodKind)
        requires { has method self.old ≡ false }
        ensures { self.new ≡ self.old ++ method ∷ [] }
    {
        self.kinds[self.count] = method;
        self.count += 1;
    }

    /// Takes a method out, wherever it stands.
    pub fn remove(&mut self, method: MethodKind)
        ensures { self.new ≡ without method self.old }
    {
        let mut left = MethodSet::empty();
        for kind in self.as_slice() {
            if *kind != method {
                left.append(*kind);
            }
        }
        *self = left;
    }

    /// Moves a method to the end, or adds it there.
    pub fn push(&mut self, method: MethodKind)
        ensures { self.new ≡ pushed method self.old }
    {
        self.remove(method);
        self.append(method);
    }

    /// These methods, pushed one after another.
    pub fn from_slice(kinds: &[MethodKind]) -> MethodSet
        ensures { result ≡ pushed_all kinds.now [] }
    {
        let mut methods = MethodSet::empty();
        for kind in kinds {
            methods.push(*kind);
        }
        methods
    }

    /// The methods that these names name, pushed one after another. A name of no method is passed
    /// over.
    pub fn from_names(names: &NameList) -> MethodSet
        ensures { result ≡ pushed_all (named names.now) [] }
    {
        let mut methods = MethodSet::empty();
        for name in names.as_slice() {
            if let Ok(method) = name.as_str().parse() {
                methods.push(method);
            }
        }
        methods
    }

    /// The names of the methods in order, for a list on the wire.
    pub fn to_names(&self, alloc: Global) -> Result<NameList, WireError>
        ensures ok { IfOk result (λ names. names ≡ map method_name self.now) }
        ensures short { IfOk result (λ names. length (joined names) < 2 ^ 32) }
        ensures memory { IfErr result (λ e. e ≡ NoMemory) }
    {
        let mut names = NameList::new(alloc);
        for kind in self.as_slice() {
            names.push(Text::new(alloc, kind.name())?)?;
        }
        Ok(names)
    }
}

/// Two sets are equal where their methods are, in order.
impl PartialEq for MethodSet {
    ghost use Rattle.std.specs.Cmp.{partial_equiv_from_equiv};
    ghost use Rattle.ssh_wire.specs.Methods.{are_same, are_same-laws};

    ghost eq = { are_same };

    ghost laws = { partial_equiv_from_equiv are_same-laws };

    fn eq(&self, other: &MethodSet) -> bool {
        self.as_slice() == other.as_slice()
    }
}

impl Eq for MethodSet {
    ghost use Rattle.ssh_wire.specs.Methods.{are_same-laws};

    ghost laws = { are_same-laws };
}
