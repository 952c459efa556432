//! What a tree declares: memories, values and counters, each in the order of the text.

ghost use Rattle.std.specs.Prelude.{◌≡◌, ◌++◌, ◌∷◌, [], IfOk, OnOk, None};
ghost use Rattle.sp_reader.specs.Plain.{plain_ident};
ghost use Rattle.sp_reader.specs.PlainProgram as tree;
ghost use Rattle.sp_reader.specs.PlainStatement.{body as body_of};
ghost use Rattle.sp_tree.specs.Plain.{plain_mem};
ghost use Rattle.sp_types.specs.Types.{type_of};
ghost use Rattle.sp_typed.specs.Declarations as spec;
ghost use Rattle.sp_typed.specs.Expressions.{known};
ghost use Rattle.sp_check.specs.Lists.{lists_of, joined, nothing, of_body, of_loop, of_stmt, of_tree};

use sp_reader::{Ident, SynDecl, SynDeclKind, SynLit, SynStmt, SynStmtKind, SynTy, Syntax};
use sp_tree::MemDecl;
use sp_typed::{known, number_word, truth_word, type_of};
use sp_words::{Kind, Ty};
use std::alloc::{AllocError, Global};

/// The memories, and the names of the values and of the counters, that are declared so far.
#[derive(Drop)]
pub struct Declared {
    pub mems: Vec<MemDecl>,
    pub vals: Vec<String>,
    pub counters: Vec<String>,
}

/// The word that a register begins with, if it has one.
fn start_word(ty: Ty, start: &Option<SynLit>) -> Option<u64>
    ensures { result ≡ spec.start_word ty (tree.plain_start start.now) }
{
    match start {
        None => None,
        Some(SynLit::Number(number, _)) => Some(number_word(ty, number)),
        Some(SynLit::Truth { value, .. }) => Some(truth_word(*value)),
    }
}

/// A memory without a start.
fn memory(
    alloc: Global,
    at: u32,
    name: &Ident,
    kind: Kind,
    ty: SynTy,
    dims: Vec<u32>,
) -> Result<MemDecl, AllocError>
    ensures { IfOk result (λ mem. plain_mem mem ≡ spec.mem_of at (plain_ident name.now) kind ty dims.items None) }
{
    Ok(MemDecl {
        name: String::from_str(alloc, &name.text)?,
        kind,
        ty: known(type_of(ty)),
        dims,
        start: None,
        at,
    })
}

/// A register.
fn register(
    alloc: Global,
    at: u32,
    name: &Ident,
    ty: SynTy,
    start: &Option<SynLit>,
) -> Result<MemDecl, AllocError>
    ensures { IfOk result (λ mem. plain_mem mem ≡ spec.mem_of at (plain_ident name.now) Kind.Reg ty [] (spec.start_word (known (type_of ty)) (tree.plain_start start.now))) }
{
    let ty = known(type_of(ty));
    Ok(MemDecl {
        name: String::from_str(alloc, &name.text)?,
        kind: Kind::Reg,
        ty,
        dims: Vec::new(alloc),
        start: start_word(ty, start),
        at,
    })
}

/// A declaration before the block.
fn port(alloc: Global, decl: &SynDecl) -> Result<MemDecl, AllocError>
    ensures { IfOk result (λ mem. plain_mem mem ≡ spec.port_mem (tree.plain_decl decl.now) (tree.plain_decl decl.now).kind) }
{
    match &decl.kind {
        SynDeclKind::ArgIn(ty) => {
            memory(
                alloc,
                decl.at,
                &decl.name,
                Kind::ArgIn,
                *ty,
                Vec::new(alloc),
            )
        }
        SynDeclKind::ArgOut(ty) => {
            memory(
                alloc,
                decl.at,
                &decl.name,
                Kind::ArgOut,
                *ty,
                Vec::new(alloc),
            )
        }
        SynDeclKind::Dram(ty, dims) => {
            memory(
                alloc,
                decl.at,
                &decl.name,
                Kind::Dram,
                *ty,
                dims.to_vec(alloc)?,
            )
        }
    }
}

impl Declared {
    /// Nothing is declared.
    fn new(alloc: Global) -> Declared
        ensures { lists_of result ≡ nothing }
    {
        Declared {
            mems: Vec::new(alloc),
            vals: Vec::new(alloc),
            counters: Vec::new(alloc),
        }
    }

    /// One more memory.
    fn mem(&mut self, mem: MemDecl) -> Result<(), AllocError>
        ensures { OnOk result (lists_of self.new ≡ record (lists_of self.old) { mems = (lists_of self.old).mems ++ plain_mem mem ∷ [] }) }
    {
        self.mems.push(mem)?;
        Ok(())
    }

    /// One more value.
    fn val(&mut self, alloc: Global, name: &Ident) -> Result<(), AllocError>
        ensures { OnOk result (lists_of self.new ≡ record (lists_of self.old) { vals = (lists_of self.old).vals ++ (plain_ident name.now).text ∷ [] }) }
    {
        self.vals.push(String::from_str(alloc, &name.text)?)?;
        Ok(())
    }

    /// The counters of a loop.
    fn binds(&mut self, alloc: Global, binds: &[Ident]) -> Result<(), AllocError>
        ensures { OnOk result (lists_of self.new ≡ record (lists_of self.old) { counters = (lists_of self.old).counters ++ spec.texts (tree.plain_idents binds.now) }) }
    {
        for name in binds {
            self.counters.push(String::from_str(alloc, &name.text)?)?;
        }
        Ok(())
    }

    /// The declarations before the block.
    fn ports(&mut self, alloc: Global, decls: &[SynDecl]) -> Result<(), AllocError>
        ensures { OnOk result (lists_of self.new ≡ record (lists_of self.old) { mems = (lists_of self.old).mems ++ spec.ports_declared (tree.plain_decls decls.now) }) }
    {
        for decl in decls {
            self.mem(port(alloc, decl)?)?;
        }
        Ok(())
    }

    /// All that the statements of a body declare.
    #[cycle(declared)]
    fn body(&mut self, alloc: Global, body: &[SynStmt]) -> Result<(), AllocError>
        ensures { OnOk result (lists_of self.new ≡ joined (lists_of self.old) (of_body (body_of (tree.plain_stmts body.now)))) }
    {
        for stmt in body {
            self.stmt(alloc, stmt)?;
        }
        Ok(())
    }

    /// The counters of a loop, and what its body declares.
    #[cycle(declared)]
    fn loop_body(
        &mut self,
        alloc: Global,
        binds: &[Ident],
        body: &[SynStmt],
    ) -> Result<(), AllocError>
        ensures { OnOk result (lists_of self.new ≡ joined (lists_of self.old) (of_loop (tree.plain_idents binds.now) (body_of (tree.plain_stmts body.now)))) }
    {
        self.binds(alloc, binds)?;
        self.body(alloc, body)
    }

    /// All that a statement declares.
    #[cycle(declared)]
    fn stmt(&mut self, alloc: Global, stmt: &SynStmt) -> Result<(), AllocError>
        ensures { OnOk result (lists_of self.new ≡ joined (lists_of self.old) (of_stmt stmt.now.at (tree.plain_stmt_kind stmt.now.kind))) }
    {
        let at = stmt.at;
        match &stmt.kind {
            SynStmtKind::Reg(name, ty, start) => self.mem(register(alloc, at, name, *ty, start)?),
            SynStmtKind::Sram(name, ty, dims) => {
                let dims = dims.to_vec(alloc)?;
                self.mem(memory(alloc, at, name, Kind::Sram, *ty, dims)?)
            }
            SynStmtKind::Fifo(name, ty, depth) => {
                let dims = vec![in alloc; *depth]?;
                self.mem(memory(alloc, at, name, Kind::Fifo, *ty, dims)?)
            }
            SynStmtKind::LineBuffer(name, ty, rows, columns) => {
                let dims = vec![in alloc; *rows, *columns]?;
                self.mem(memory(alloc, at, name, Kind::LineBuf, *ty, dims)?)
            }
            SynStmtKind::Let(name, _) => self.val(alloc, name),
            SynStmtKind::Block(_, body) => self.body(alloc, body),
            SynStmtKind::Foreach(l) => self.loop_body(alloc, &l.binds, &l.body),
            SynStmtKind::Reduce(l, _, _, _) => self.loop_body(alloc, &l.binds, &l.body),
            SynStmtKind::Fold(l, _, _, _) => self.loop_body(alloc, &l.binds, &l.body),
            SynStmtKind::MemReduce(l, _, _, _) => self.loop_body(alloc, &l.binds, &l.body),
            SynStmtKind::Fsm(_, tested, _, now, body, last, _) => {
                self.val(alloc, tested)?;
                self.val(alloc, now)?;
                self.body(alloc, body)?;
                self.val(alloc, last)
            }
            SynStmtKind::If(_, first, second) => {
                self.body(alloc, first)?;
                self.body(alloc, second)
            }
            SynStmtKind::Set(_, _)
            | SynStmtKind::SetAt(_, _, _)
            | SynStmtKind::Enq(_, _)
            | SynStmtKind::Load(_, _, _)
            | SynStmtKind::Store(_, _, _)
            | SynStmtKind::Gather(_, _, _, _)
            | SynStmtKind::Scatter(_, _, _, _) => Ok(()),
        }
    }
}

/// All that a tree declares.
pub(crate) fn declarations(alloc: Global, syntax: &Syntax) -> Result<Declared, AllocError>
    ensures { IfOk result (λ all. lists_of all ≡ of_tree (tree.plain_syntax syntax.now)) }
{
    let mut all = Declared::new(alloc);
    all.ports(alloc, &syntax.decls)?;
    all.body(alloc, &syntax.body)?;
    Ok(all)
}
