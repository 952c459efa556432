ghost use Rattle.std.specs.Prelude.{◌≡◌, map, string_bytes};
ghost use Rattle.sp_words.specs.Ports.{plain_ports};
ghost use Rattle.sp_tree.specs.Invariant.{IsProgram};
ghost use Rattle.sp_tree.specs.Plain.{plain_mem};
ghost use Rattle.sp_tree.specs.ProgramParts.{plain_program};

use crate::declaration::MemDecl;
use crate::statement::Stmt;
use sp_words::Ports;
use std::marker::Model;

/// A typed program: its ports; its memories, arguments, outputs and DRAMs among them, in the order of their
/// declarations; the names of its values and of its counters, by number; and the statements of its block.
#[derive(Debug, Drop)]
pub struct Program {
    ports: Ports,
    mems: Vec<MemDecl>,
    vals: Vec<String>,
    counters: Vec<String>,
    body: Vec<Stmt>,
}

impl Model for Program {
    ghost use Rattle.std.specs.Prelude.{map, string_bytes};
    ghost use Rattle.sp_words.specs.Ports.{plain_ports};
    ghost use Rattle.sp_tree.specs.Invariant.{IsProgram};
    ghost use Rattle.sp_tree.specs.Plain.{plain_mem};
    ghost use Rattle.sp_tree.specs.ProgramParts.{ProgramParts, plain_program};
    ghost use Rattle.std.specs.Coded.{codes};
    ghost use Rattle.sp_tree.specs.contracts.statement.Stmt as stmt;

    ghost Value = { ProgramParts };

    ghost coded = { Prim.hlevel (codes, stmt.the_row.coded) };

    ghost view = { λ p. record { ports = plain_ports p.ports; mems = map plain_mem p.mems.items; vals = map string_bytes p.vals.items; counters = map string_bytes p.counters.items; body = p.body.items } };

    ghost invariant = { λ p. IsProgram (plain_program (record { ports = plain_ports p.ports; mems = map plain_mem p.mems.items; vals = map string_bytes p.vals.items; counters = map string_bytes p.counters.items; body = p.body.items })) };
}

impl Program {
    /// The program of these parts.
    pub fn new(
        ports: Ports,
        mems: Vec<MemDecl>,
        vals: Vec<String>,
        counters: Vec<String>,
        body: Vec<Stmt>,
    ) -> Program
        requires { IsProgram (plain_program (record { ports = plain_ports ports; mems = map plain_mem mems.items; vals = map string_bytes vals.items; counters = map string_bytes counters.items; body = body.items })) }
        ensures { result ≡ record { ports = plain_ports ports; mems = map plain_mem mems.items; vals = map string_bytes vals.items; counters = map string_bytes counters.items; body = body.items } }
    {
        Program {
            ports,
            mems,
            vals,
            counters,
            body,
        }
    }

    /// Its arguments, outputs and DRAMs, each list in the order of their declarations.
    pub fn ports(&self) -> &Ports
        ensures ports { plain_ports result.now ≡ self.now.ports }
        ensures program { IsProgram (plain_program self.now) }
    {
        &self.ports
    }

    /// Its memories, by number.
    pub fn mems(&self) -> &[MemDecl]
        ensures mems { map plain_mem result.now ≡ self.now.mems }
        ensures program { IsProgram (plain_program self.now) }
    {
        &self.mems
    }

    /// The names of its values, by number.
    pub fn vals(&self) -> &[String]
        ensures vals { map string_bytes result.now ≡ self.now.vals }
        ensures program { IsProgram (plain_program self.now) }
    {
        &self.vals
    }

    /// The names of its counters, by number.
    pub fn counters(&self) -> &[String]
        ensures counters { map string_bytes result.now ≡ self.now.counters }
        ensures program { IsProgram (plain_program self.now) }
    {
        &self.counters
    }

    /// The statements of its block.
    pub fn body(&self) -> &[Stmt]
        ensures body { result.now ≡ self.now.body }
        ensures program { IsProgram (plain_program self.now) }
    {
        &self.body
    }
}
