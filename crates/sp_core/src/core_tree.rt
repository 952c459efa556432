ghost use Rattle.std.specs.Prelude.{◌≡◌, ℕ, map, Some, IfOk, OnOk};
ghost use Rattle.sp_words.specs.Ports.{plain_ports};
ghost use Rattle.sp_core.specs.CoreParts.{plain_core};
ghost use Rattle.sp_core.specs.Invariant.{IsCore, wrong_place};
ghost use Rattle.sp_core.specs.Plain.{plain_mem};

use crate::error::CoreError;
use crate::memory::CoreMem;
use crate::node::Node;
use crate::parts::Parts;
use crate::shown::wrong_place;
use sp_words::Ports;
use std::alloc::Global;
use std::marker::Model;

/// A core: its memories, arguments and outputs among them, by number; its arguments, outputs and DRAMs; and its tree.
#[derive(Debug, Drop)]
pub struct Core {
    mems: Vec<CoreMem>,
    ports: Ports,
    root: Node,
}

impl Model for Core {
    ghost use Rattle.std.specs.Prelude.{map};
    ghost use Rattle.sp_words.specs.Ports.{plain_ports};
    ghost use Rattle.sp_core.specs.CoreParts.{CoreParts, plain_core};
    ghost use Rattle.sp_core.specs.Invariant.{IsCore};
    ghost use Rattle.sp_core.specs.Plain.{plain_mem};
    ghost use Rattle.std.specs.Coded.{codes};
    ghost use Rattle.sp_core.specs.contracts.node.Node as node;

    ghost Value = { CoreParts };

    ghost coded = { Prim.hlevel (codes, node.the_row.coded) };

    ghost view = { λ c. record { mems = map plain_mem c.mems.items; ports = plain_ports c.ports; root = c.root } };

    ghost invariant = { λ c. IsCore (plain_core (record { mems = map plain_mem c.mems.items; ports = plain_ports c.ports; root = c.root })) };
}

impl Core {
    /// The core of these memories, ports and tree. `Shape` names the first node in preorder that breaks a rule of cores; 0
    /// where the memories, the ports or the size do by themselves.
    pub fn new(
        alloc: Global,
        mems: Vec<CoreMem>,
        ports: Ports,
        root: Node,
    ) -> Result<Core, CoreError>
        ensures core { IfOk result (λ core. core ≡ record { mems = map plain_mem mems.items; ports = plain_ports ports; root = root }) }
        ensures right { OnOk result (IsCore (plain_core (record { mems = map plain_mem mems.items; ports = plain_ports ports; root = root }))) }
        ensures shape { (node : ℕ) → result ≡ Err (CoreError.Shape node) → wrong_place (plain_core (record { mems = map plain_mem mems.items; ports = plain_ports ports; root = root })) ≡ Some node }
    {
        let parts = Parts { mems, ports, root };
        match wrong_place(alloc, &parts)? {
            Some(node) => Err(CoreError::Shape { node: node as u32 }),
            None => Ok(Core {
                mems: parts.mems,
                ports: parts.ports,
                root: parts.root,
            }),
        }
    }

    /// Its tree.
    pub fn root(&self) -> &Node
        ensures root { result.now ≡ self.now.root }
        ensures core { IsCore (plain_core self.now) }
    {
        &self.root
    }

    /// Its memories, by number.
    pub fn mems(&self) -> &[CoreMem]
        ensures mems { map plain_mem result.now ≡ self.now.mems }
        ensures core { IsCore (plain_core self.now) }
    {
        &self.mems
    }

    /// Its arguments, outputs and DRAMs, each list in order.
    pub fn ports(&self) -> &Ports
        ensures ports { plain_ports result.now ≡ self.now.ports }
        ensures core { IsCore (plain_core self.now) }
    {
        &self.ports
    }
}
