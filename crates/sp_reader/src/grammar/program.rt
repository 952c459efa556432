//! Declarations and whole programs.

ghost use Rattle.sp_reader.specs.PlainProgram.{plain_decl, plain_decl_kind, plain_decls, plain_stmts, plain_syntax};
ghost use Rattle.sp_reader.specs.ProgramRules as spec;
ghost use Rattle.sp_reader.specs.StatementRules.{braced, stmt as statement};
ghost use Rattle.sp_reader.specs.Steps.{Gives};

use crate::error::Stop;
use crate::grammar::parser::{Parser, place, refuse, sees, semicolons, skip, tail};
use crate::grammar::statement::{Bodies, stmt};
use crate::syntax::declaration::{SynDecl, SynDeclKind, Syntax};
use crate::syntax::statement::SynStmt;
use crate::token::{Token, TokenKind};

impl Parser<'_> {
    #[tactic(auto, unfolding(crate::specs::ProgramRules::a_dram))]
    fn dram<'t>(&self, tokens: &'t [Token]) -> Result<(SynDeclKind, &'t [Token]), Stop>
        ensures { Gives (λ x. (plain_decl_kind x.0, x.1.now)) result (spec.a_dram self.now.source.now tokens.now) }
    {
        let (ty, rest) = self.bracketed(tokens)?;
        let (dims, rest) = self.dims(rest)?;
        Ok((SynDeclKind::Dram(ty, dims), rest))
    }

    /// What stands after `val name =` outside of `Accel`.
    #[tactic(auto, unfolding(crate::specs::ProgramRules::port))]
    fn port<'t>(&self, tokens: &'t [Token]) -> Result<(SynDeclKind, &'t [Token]), Stop>
        ensures { Gives (λ x. (plain_decl_kind x.0, x.1.now)) result (spec.port self.now.source.now tokens.now) }
    {
        if sees(tokens, TokenKind::ArgIn) {
            let (ty, rest) = self.bracketed(tail(tokens))?;
            Ok((SynDeclKind::ArgIn(ty), rest))
        } else if sees(tokens, TokenKind::ArgOut) {
            let (ty, rest) = self.bracketed(tail(tokens))?;
            Ok((SynDeclKind::ArgOut(ty), rest))
        } else if sees(tokens, TokenKind::Dram) {
            self.dram(tail(tokens))
        } else {
            Err(refuse(tokens))
        }
    }

    #[tactic(auto, unfolding(crate::specs::ProgramRules::decl))]
    fn decl<'t>(&self, tokens: &'t [Token]) -> Result<(SynDecl, &'t [Token]), Stop>
        ensures { Gives (λ x. (plain_decl x.0, x.1.now)) result (spec.decl self.now.source.now tokens.now) }
    {
        let at = place(tokens);
        let rest = skip(tokens, TokenKind::Val)?;
        let (name, rest) = self.name(rest)?;
        let rest = skip(rest, TokenKind::Equal)?;
        let (kind, rest) = self.port(rest)?;
        Ok((SynDecl { at, name, kind }, rest))
    }

    /// Declarations up to `Accel`, each with `;` after it.
    fn decls<'t>(&self, tokens: &'t [Token]) -> Result<(Vec<SynDecl>, &'t [Token]), Stop>
        ensures { Gives (λ x. (plain_decls x.0.items, x.1.now)) result (spec.decls self.now.source.now tokens.now) }
    {
        let mut found = Vec::new(self.alloc);
        let mut rest = semicolons(tokens);
        for _turn in 0..tokens.len() {
            if sees(rest, TokenKind::Accel) {
                return Ok((found, rest));
            }
            let (next, after) = self.decl(rest)?;
            found.push(next)?;
            let after = skip(after, TokenKind::Semicolon)?;
            rest = semicolons(after);
        }
        Err(refuse(rest))
    }

    #[tactic(auto)]
    fn body<'t>(
        &self,
        depth: usize,
        tokens: &'t [Token],
    ) -> Result<(Vec<SynStmt>, &'t [Token]), Stop>
        ensures { Gives (λ x. (plain_stmts x.0.items, x.1.now)) result (braced (statement self.now.source.now depth) tokens.now) }
    {
        let bodies = Bodies {
            parser: *self,
            depth,
            stmt,
        };
        bodies.braced(tokens)
    }

    /// A program, with no token after it.
    #[tactic(auto, unfolding(crate::specs::ProgramRules::program))]
    pub fn program(&self, tokens: &[Token]) -> Result<Syntax, Stop>
        ensures { Gives plain_syntax result (spec.program self.now.source.now tokens.now) }
    {
        let (decls, rest) = self.decls(tokens)?;
        let rest = skip(rest, TokenKind::Accel)?;
        let (body, rest) = self.body(tokens.len(), rest)?;
        let rest = semicolons(rest);
        match rest {
            [] => Ok(Syntax { decls, body }),
            [_, ..] => Err(refuse(rest)),
        }
    }
}
