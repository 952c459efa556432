//! Operands that begin with a name or a word and have operands in parentheses.

ghost use Rattle.std.specs.Prelude.{◌≡◌, IfOk};
ghost use Rattle.sp_reader.specs.ExpressionRules as spec;
ghost use Rattle.sp_reader.specs.Nests.{Nests};
ghost use Rattle.sp_reader.specs.Plain.{plain_expr, plain_exprs, plain_ident};
ghost use Rattle.sp_reader.specs.PlainTree as tree;
ghost use Rattle.sp_reader.specs.Steps.{Gives};

use crate::error::Stop;
use crate::grammar::expression::{LOOSEST, Operands};
use crate::grammar::parser::{Parser, refuse, sees, skip, tail};
use crate::syntax::expression::{Ident, SynExpr, SynExprKind};
use crate::token::{Token, TokenKind};
use std::alloc::{AllocError, Global};

fn mux(alloc: Global, at: u32, a: SynExpr, b: SynExpr, c: SynExpr) -> Result<SynExpr, AllocError>
    ensures { IfOk result (λ e. plain_expr e ≡ tree.expr at (tree.mux (plain_expr a) (plain_expr b) (plain_expr c))) }
{
    let kind = SynExprKind::Mux(
        Box::new(alloc, a)?,
        Box::new(alloc, b)?,
        Box::new(alloc, c)?,
    );
    Ok(SynExpr { at, kind })
}

pub fn min(alloc: Global, at: u32, a: SynExpr, b: SynExpr) -> Result<SynExpr, AllocError>
    ensures { IfOk result (λ e. plain_expr e ≡ tree.expr at (tree.min (plain_expr a) (plain_expr b))) }
{
    let kind = SynExprKind::Min(Box::new(alloc, a)?, Box::new(alloc, b)?);
    Ok(SynExpr { at, kind })
}

pub fn max(alloc: Global, at: u32, a: SynExpr, b: SynExpr) -> Result<SynExpr, AllocError>
    ensures { IfOk result (λ e. plain_expr e ≡ tree.expr at (tree.max (plain_expr a) (plain_expr b))) }
{
    let kind = SynExprKind::Max(Box::new(alloc, a)?, Box::new(alloc, b)?);
    Ok(SynExpr { at, kind })
}

/// What a name is alone, or with `.value`.
fn name(ident: Ident, value: bool) -> SynExpr
    ensures { plain_expr result ≡ spec.make_name (plain_ident ident) value }
{
    let at = ident.at;
    let kind = SynExprKind::Name(ident, value);
    SynExpr { at, kind }
}

fn deq(ident: Ident) -> SynExpr
    ensures { plain_expr result ≡ tree.expr ident.at (tree.deq (plain_ident ident)) }
{
    let at = ident.at;
    let kind = SynExprKind::Deq(ident);
    SynExpr { at, kind }
}

fn access(ident: Ident, indices: Vec<SynExpr>) -> SynExpr
    ensures { plain_expr result ≡ tree.expr ident.at (tree.access (plain_ident ident) (tree.row (plain_exprs indices.items))) }
{
    let at = ident.at;
    let kind = SynExprKind::At(ident, indices);
    SynExpr { at, kind }
}

/// The tokens after `()`.
#[tactic(auto, unfolding(crate::specs::ExpressionRules::no_operand))]
fn no_operand(tokens: &[Token]) -> Result<&[Token], Stop>
    ensures { Gives (λ x. (tt, x.now)) result (spec.no_operand tokens.now) }
{
    let rest = skip(tokens, TokenKind::OpenRound)?;
    let rest = skip(rest, TokenKind::CloseRound)?;
    Ok(rest)
}

/// A name and what stands after its `.`; a cast is left.
#[tactic(auto, unfolding(crate::specs::ExpressionRules::member))]
fn member(ident: Ident, tokens: &[Token]) -> Result<(SynExpr, &[Token]), Stop>
    ensures { Gives (λ x. (plain_expr x.0, x.1.now)) result (spec.member (plain_ident ident) tokens.now) }
{
    let rest = tail(tokens);
    if sees(rest, TokenKind::Value) {
        Ok((name(ident, true), tail(rest)))
    } else if sees(rest, TokenKind::Deq) {
        let rest = no_operand(tail(rest))?;
        Ok((deq(ident), rest))
    } else {
        Ok((name(ident, false), tokens))
    }
}

impl<
    F: for<'p, 't> Fn(Parser<'p>, usize, u8, &'t [Token]) -> Result<(SynExpr, &'t [Token]), Stop>,
> Operands<'_, F> {
    /// `(a, b)`.
    #[tactic(auto, unfolding(crate::specs::ExpressionRules::pair))]
    pub fn pair<'t>(&self, tokens: &'t [Token]) -> Result<(SynExpr, SynExpr, &'t [Token]), Stop>
        requires { Nests self.now.depth (F.pre self.now.expr) (F.post self.now.expr) }
        ensures { let source = self.now.parser.source.now in
            Gives (λ x. ((plain_expr x.0, plain_expr x.1), x.2.now)) result (spec.pair (spec.expr source self.now.depth) tokens.now) }
    {
        let rest = skip(tokens, TokenKind::OpenRound)?;
        let (a, rest) = self.inner(LOOSEST, rest)?;
        let rest = skip(rest, TokenKind::Comma)?;
        let (b, rest) = self.inner(LOOSEST, rest)?;
        let rest = skip(rest, TokenKind::CloseRound)?;
        Ok((a, b, rest))
    }

    /// `(a, b, c)` of `mux`.
    #[tactic(auto, unfolding(crate::specs::ExpressionRules::choice))]
    pub fn choice<'t>(&self, at: u32, tokens: &'t [Token]) -> Result<(SynExpr, &'t [Token]), Stop>
        requires { Nests self.now.depth (F.pre self.now.expr) (F.post self.now.expr) }
        ensures { let source = self.now.parser.source.now in
            Gives (λ x. (plain_expr x.0, x.1.now)) result (spec.choice (spec.expr source self.now.depth) at tokens.now) }
    {
        let rest = skip(tokens, TokenKind::OpenRound)?;
        let (a, rest) = self.inner(LOOSEST, rest)?;
        let rest = skip(rest, TokenKind::Comma)?;
        let (b, rest) = self.inner(LOOSEST, rest)?;
        let rest = skip(rest, TokenKind::Comma)?;
        let (c, rest) = self.inner(LOOSEST, rest)?;
        let rest = skip(rest, TokenKind::CloseRound)?;
        Ok((mux(self.parser.alloc, at, a, b, c)?, rest))
    }

    /// Expressions with commas between.
    fn exprs<'t>(&self, tokens: &'t [Token]) -> Result<(Vec<SynExpr>, &'t [Token]), Stop>
        requires { Nests self.now.depth (F.pre self.now.expr) (F.post self.now.expr) }
        ensures { let source = self.now.parser.source.now in
            Gives (λ x. (plain_exprs x.0.items, x.1.now)) result (spec.exprs (spec.expr source self.now.depth) tokens.now) }
    {
        let mut found = Vec::new(self.parser.alloc);
        let mut rest = tokens;
        for _turn in 0..tokens.len() {
            let (next, after) = self.inner(LOOSEST, rest)?;
            found.push(next)?;
            if !sees(after, TokenKind::Comma) {
                return Ok((found, after));
            }
            rest = tail(after);
        }
        Err(refuse(rest))
    }

    #[tactic(auto, unfolding(crate::specs::ExpressionRules::indexed))]
    fn indexed<'t>(&self, ident: Ident, tokens: &'t [Token]) -> Result<(SynExpr, &'t [Token]), Stop>
        requires { Nests self.now.depth (F.pre self.now.expr) (F.post self.now.expr) }
        ensures { let source = self.now.parser.source.now in
            Gives (λ x. (plain_expr x.0, x.1.now)) result (spec.indexed (spec.expr source self.now.depth) (plain_ident ident) tokens.now) }
    {
        let (indices, rest) = self.exprs(tokens)?;
        let rest = skip(rest, TokenKind::CloseRound)?;
        Ok((access(ident, indices), rest))
    }

    /// What begins with a name.
    #[tactic(auto, unfolding(crate::specs::ExpressionRules::named))]
    pub fn named<'t>(&self, tokens: &'t [Token]) -> Result<(SynExpr, &'t [Token]), Stop>
        requires { Nests self.now.depth (F.pre self.now.expr) (F.post self.now.expr) }
        ensures { let source = self.now.parser.source.now in
            Gives (λ x. (plain_expr x.0, x.1.now)) result (spec.named source (spec.expr source self.now.depth) tokens.now) }
    {
        let (ident, rest) = self.parser.name(tokens)?;
        if sees(rest, TokenKind::OpenRound) {
            self.indexed(ident, tail(rest))
        } else if sees(rest, TokenKind::Dot) {
            member(ident, rest)
        } else {
            Ok((name(ident, false), rest))
        }
    }
}
