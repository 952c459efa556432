//! Expressions, by precedence.

ghost use Rattle.std.specs.Prelude.{◌≡◌, ◌<◌, IfOk};
ghost use Rattle.sp_reader.specs.ExpressionRules as spec;
ghost use Rattle.sp_reader.specs.Nests.{Nests};
ghost use Rattle.sp_reader.specs.Plain.{plain_digits, plain_expr};
ghost use Rattle.sp_reader.specs.PlainTree as tree;
ghost use Rattle.sp_reader.specs.Steps.{Gives};

use crate::error::Stop;
use crate::grammar::call::{max, min};
use crate::grammar::parser::{Parser, peek, place, refuse, sees, skip, tail};
use crate::syntax::expression::{Digits, SynExpr, SynExprKind, SynTy, SynUn};
use crate::token::{Token, TokenKind};
use sp_words::BinOp;
use std::alloc::{AllocError, Global};

/// An operator between two operands.
#[derive(Clone, Copy, Debug)]
pub enum Infix {
    Operation(BinOp),
    /// To the left where the flag is set.
    Shift(bool),
}

/// The loosest level of operators; no operator is of level 0.
pub const LOOSEST: u8 = 7;

/// The operator of this kind.
fn infix_of(kind: TokenKind) -> Option<Infix>
    ensures { result ≡ spec.infix_of kind }
{
    match kind {
        TokenKind::Star => Some(Infix::Operation(BinOp::Mul)),
        TokenKind::Slash => Some(Infix::Operation(BinOp::Div)),
        TokenKind::Percent => Some(Infix::Operation(BinOp::Rem)),
        TokenKind::Plus => Some(Infix::Operation(BinOp::Add)),
        TokenKind::Minus => Some(Infix::Operation(BinOp::Sub)),
        TokenKind::Less => Some(Infix::Operation(BinOp::Lt)),
        TokenKind::LessEqual => Some(Infix::Operation(BinOp::Le)),
        TokenKind::Greater => Some(Infix::Operation(BinOp::Gt)),
        TokenKind::GreaterEqual => Some(Infix::Operation(BinOp::Ge)),
        TokenKind::ShiftLeft => Some(Infix::Shift(true)),
        TokenKind::ShiftRight => Some(Infix::Shift(false)),
        TokenKind::EqualEqual => Some(Infix::Operation(BinOp::Eq)),
        TokenKind::BangEqual => Some(Infix::Operation(BinOp::Ne)),
        TokenKind::And | TokenKind::AndAnd => Some(Infix::Operation(BinOp::And)),
        TokenKind::Caret => Some(Infix::Operation(BinOp::Xor)),
        TokenKind::Or | TokenKind::OrOr => Some(Infix::Operation(BinOp::Or)),
        _ => None,
    }
}

fn level_of_op(op: BinOp) -> u8
    ensures value { result ≡ spec.level_of_op op }
    ensures some { 0 < result }
{
    match op {
        BinOp::Mul | BinOp::Div | BinOp::Rem => 1,
        BinOp::Add | BinOp::Sub => 2,
        BinOp::Lt | BinOp::Le | BinOp::Gt | BinOp::Ge => 3,
        BinOp::Eq | BinOp::Ne => 4,
        BinOp::And => 5,
        BinOp::Xor => 6,
        _ => LOOSEST,
    }
}

/// How loosely the operator binds. All group to the left.
fn level_of(op: Infix) -> u8
    ensures value { result ≡ spec.level_of op }
    ensures some { 0 < result }
{
    match op {
        Infix::Operation(op) => level_of_op(op),
        Infix::Shift(_) => 3,
    }
}

/// Whether the operator binds tighter than a shift, whose right side is a number alone.
fn binds_tighter(kind: TokenKind) -> bool
    ensures { result ≡ spec.binds_tighter kind }
{
    match kind {
        TokenKind::Star
        | TokenKind::Slash
        | TokenKind::Percent
        | TokenKind::Plus
        | TokenKind::Minus => true,
        _ => false,
    }
}

/// The operator of this kind before an operand.
fn prefix(kind: TokenKind) -> Option<SynUn>
    ensures { result ≡ spec.prefix kind }
{
    match kind {
        TokenKind::Minus => Some(SynUn::Minus),
        TokenKind::Bang => Some(SynUn::Bang),
        TokenKind::Tilde => Some(SynUn::Tilde),
        _ => None,
    }
}

fn two(alloc: Global, op: BinOp, left: SynExpr, right: SynExpr) -> Result<SynExpr, AllocError>
    ensures { IfOk result (λ e. plain_expr e ≡ spec.make_two op (plain_expr left) (plain_expr right)) }
{
    let at = left.at;
    let kind = SynExprKind::Two(op, Box::new(alloc, left)?, Box::new(alloc, right)?);
    Ok(SynExpr { at, kind })
}

fn cast(alloc: Global, at: u32, operand: SynExpr, ty: SynTy) -> Result<SynExpr, AllocError>
    ensures { IfOk result (λ e. plain_expr e ≡ tree.expr at (tree.cast (plain_expr operand) ty)) }
{
    let kind = SynExprKind::Cast(Box::new(alloc, operand)?, ty);
    Ok(SynExpr { at, kind })
}

fn truth(at: u32, value: bool) -> SynExpr
    ensures { plain_expr result ≡ tree.expr at (tree.truth value) }
{
    let kind = SynExprKind::Truth(value);
    SynExpr { at, kind }
}

fn one(alloc: Global, at: u32, op: SynUn, operand: SynExpr) -> Result<SynExpr, AllocError>
    ensures { IfOk result (λ e. plain_expr e ≡ tree.expr at (tree.one op (plain_expr operand))) }
{
    let kind = SynExprKind::One(op, Box::new(alloc, operand)?);
    Ok(SynExpr { at, kind })
}

fn literal(at: u32, digits: Digits) -> SynExpr
    ensures { plain_expr result ≡ tree.expr at (tree.number (plain_digits digits)) }
{
    let kind = SynExprKind::Number(digits);
    SynExpr { at, kind }
}

fn is_minus(op: SynUn) -> bool
    ensures { result ≡ spec.is_minus op }
{
    match op {
        SynUn::Minus => true,
        _ => false,
    }
}

fn shift(alloc: Global, to_left: bool, left: SynExpr, by: u8) -> Result<SynExpr, AllocError>
    ensures { IfOk result (λ e. plain_expr e ≡ spec.make_shift to_left (plain_expr left) by) }
{
    let at = left.at;
    let kind = SynExprKind::Shift(to_left, Box::new(alloc, left)?, by);
    Ok(SynExpr { at, kind })
}

/// An operator before an operand, and its place.
#[derive(Clone, Copy, Debug)]
pub struct Sign {
    pub at: u32,
    pub op: SynUn,
}

/// The operator before an operand that comes next.
#[tactic(auto, unfolding(crate::specs::ExpressionRules::sign_at))]
fn sign_at(tokens: &[Token]) -> Option<Sign>
    ensures { result ≡ spec.sign_at tokens.now }
{
    let op = prefix(peek(tokens))?;
    if is_minus(op) && sees(tail(tokens), TokenKind::Number) {
        return None;
    }
    let at = place(tokens);
    Some(Sign { at, op })
}

/// The operators before an operand.
fn signs_of(alloc: Global, tokens: &[Token]) -> Result<(Vec<Sign>, &[Token]), Stop>
    ensures { Gives (λ x. (x.0.items, x.1.now)) result (spec.signs tokens.now) }
{
    let mut found = Vec::new(alloc);
    let mut rest = tokens;
    for _turn in 0..tokens.len() {
        let Some(sign) = sign_at(rest) else {
            return Ok((found, rest));
        };
        found.push(sign)?;
        rest = tail(rest);
    }
    Ok((found, rest))
}

/// What the operators make of their operand.
#[tactic(auto, using(crate::proofs::Signs::apply_last))]
fn apply(alloc: Global, signs: Vec<Sign>, operand: SynExpr) -> Result<SynExpr, AllocError>
    ensures { IfOk result (λ e. plain_expr e ≡ spec.apply signs.items (plain_expr operand)) }
{
    let mut left = signs;
    let mut whole = operand;
    while let Some(sign) = left.pop() {
        whole = one(alloc, sign.at, sign.op, whole)?;
    }
    Ok(whole)
}

impl Parser<'_> {
    /// The casts after an operand whose first token stands at `at`.
    pub fn casts<'t>(
        &self,
        at: u32,
        operand: SynExpr,
        tokens: &'t [Token],
    ) -> Result<(SynExpr, &'t [Token]), Stop>
        ensures { Gives (λ x. (plain_expr x.0, x.1.now)) result (spec.casts self.now.source.now at (plain_expr operand) tokens.now) }
    {
        let mut whole = operand;
        let mut rest = tokens;
        for _turn in 0..tokens.len() {
            if !sees(rest, TokenKind::Dot) {
                return Ok((whole, rest));
            }
            let (ty, after) = self.target(tail(rest))?;
            whole = cast(self.alloc, at, whole, ty)?;
            rest = after;
        }
        Ok((whole, rest))
    }
}

/// Reads operands and operations; what stands inside of them is read by `expr`.
#[derive(Clone, Copy)]
pub struct Operands<'a, F> {
    pub parser: Parser<'a>,
    /// How many parts may stand one inside another.
    pub depth: usize,
    pub expr: F,
}

impl<
    F: for<'p, 't> Fn(Parser<'p>, usize, u8, &'t [Token]) -> Result<(SynExpr, &'t [Token]), Stop>,
> Operands<'_, F> {
    pub fn inner<'t>(&self, level: u8, tokens: &'t [Token]) -> Result<(SynExpr, &'t [Token]), Stop>
        requires { Nests self.now.depth (F.pre self.now.expr) (F.post self.now.expr) }
        ensures { Gives (λ x. (plain_expr x.0, x.1.now)) result (spec.expr self.now.parser.source.now self.now.depth level tokens.now) }
    {
        (self.expr)(self.parser, self.depth, level, tokens)
    }

    /// An operation, from its right operand on.
    #[tactic(auto, unfolding(crate::specs::ExpressionRules::operation))]
    fn operation<'t>(
        &self,
        level: u8,
        op: Infix,
        left: SynExpr,
        tokens: &'t [Token],
    ) -> Result<(SynExpr, &'t [Token]), Stop>
        requires { Nests self.now.depth (F.pre self.now.expr) (F.post self.now.expr) }
        ensures { let source = self.now.parser.source.now in
            Gives (λ x. (plain_expr x.0, x.1.now)) result (spec.operation source (spec.expr source self.now.depth) level op (plain_expr left) tokens.now) }
    {
        match op {
            Infix::Operation(op) => {
                let (right, rest) = self.inner(level, tokens)?;
                Ok((two(self.parser.alloc, op, left, right)?, rest))
            }
            Infix::Shift(to_left) => {
                let (by, rest) = self.parser.shift_amount(tokens)?;
                if binds_tighter(peek(rest)) {
                    return Err(refuse(rest));
                }
                Ok((shift(self.parser.alloc, to_left, left, by)?, rest))
            }
        }
    }

    /// Goes on with operators up to the level, after `first`.
    fn chain_from<'t>(
        &self,
        level: u8,
        turns: usize,
        first: SynExpr,
        tokens: &'t [Token],
    ) -> Result<(SynExpr, &'t [Token]), Stop>
        requires { Nests self.now.depth (F.pre self.now.expr) (F.post self.now.expr) }
        ensures { let source = self.now.parser.source.now in
            Gives (λ x. (plain_expr x.0, x.1.now)) result (spec.chain_from source (spec.expr source self.now.depth) level turns (plain_expr first) tokens.now) }
    {
        let mut left = first;
        let mut rest = tokens;
        for _turn in 0..turns {
            match infix_of(peek(rest)) {
                Some(op) if level_of(op) <= level => {
                    let (whole, after) = self.operation(level_of(op) - 1, op, left, tail(rest))?;
                    left = whole;
                    rest = after;
                }
                _ => return Ok((left, rest)),
            }
        }
        Err(refuse(rest))
    }

    #[tactic(auto, unfolding(crate::specs::ExpressionRules::chain))]
    fn chain<'t>(&self, level: u8, tokens: &'t [Token]) -> Result<(SynExpr, &'t [Token]), Stop>
        requires { Nests self.now.depth (F.pre self.now.expr) (F.post self.now.expr) }
        ensures { let source = self.now.parser.source.now in
            Gives (λ x. (plain_expr x.0, x.1.now)) result (spec.chain source (spec.expr source self.now.depth) level tokens.now) }
    {
        let (first, rest) = self.prefixed(tokens)?;
        self.chain_from(level, tokens.len(), first, rest)
    }

    /// An operand with the operators before it.
    #[tactic(auto, unfolding(crate::specs::ExpressionRules::prefixed))]
    fn prefixed<'t>(&self, tokens: &'t [Token]) -> Result<(SynExpr, &'t [Token]), Stop>
        requires { Nests self.now.depth (F.pre self.now.expr) (F.post self.now.expr) }
        ensures { let source = self.now.parser.source.now in
            Gives (λ x. (plain_expr x.0, x.1.now)) result (spec.prefixed source (spec.expr source self.now.depth) tokens.now) }
    {
        let (signs, rest) = signs_of(self.parser.alloc, tokens)?;
        let (operand, rest) = self.unsigned(rest)?;
        let whole = apply(self.parser.alloc, signs, operand)?;
        Ok((whole, rest))
    }

    /// An operand without the operators before it. A `-` right before a number belongs to the number.
    #[tactic(auto, unfolding(crate::specs::ExpressionRules::unsigned))]
    fn unsigned<'t>(&self, tokens: &'t [Token]) -> Result<(SynExpr, &'t [Token]), Stop>
        requires { Nests self.now.depth (F.pre self.now.expr) (F.post self.now.expr) }
        ensures { let source = self.now.parser.source.now in
            Gives (λ x. (plain_expr x.0, x.1.now)) result (spec.unsigned source (spec.expr source self.now.depth) tokens.now) }
    {
        let at = place(tokens);
        if sees(tokens, TokenKind::Minus) {
            let (digits, rest) = self.parser.number(at, true, tail(tokens))?;
            return self.parser.casts(at, literal(at, digits), rest);
        }
        let (operand, rest) = self.primary(tokens)?;
        self.parser.casts(at, operand, rest)
    }

    #[tactic(auto, unfolding(crate::specs::ExpressionRules::enclosed))]
    fn enclosed<'t>(&self, tokens: &'t [Token]) -> Result<(SynExpr, &'t [Token]), Stop>
        requires { Nests self.now.depth (F.pre self.now.expr) (F.post self.now.expr) }
        ensures { let source = self.now.parser.source.now in
            Gives (λ x. (plain_expr x.0, x.1.now)) result (spec.enclosed (spec.expr source self.now.depth) tokens.now) }
    {
        let (inner, rest) = self.inner(LOOSEST, tokens)?;
        let rest = skip(rest, TokenKind::CloseRound)?;
        Ok((inner, rest))
    }

    /// An operand without operators around it.
    #[tactic(auto, unfolding(crate::specs::ExpressionRules::primary))]
    fn primary<'t>(&self, tokens: &'t [Token]) -> Result<(SynExpr, &'t [Token]), Stop>
        requires { Nests self.now.depth (F.pre self.now.expr) (F.post self.now.expr) }
        ensures { let source = self.now.parser.source.now in
            Gives (λ x. (plain_expr x.0, x.1.now)) result (spec.primary source (spec.expr source self.now.depth) tokens.now) }
    {
        let at = place(tokens);
        match peek(tokens) {
            TokenKind::Number => {
                let (digits, rest) = self.parser.number(at, false, tokens)?;
                Ok((literal(at, digits), rest))
            }
            TokenKind::True => Ok((truth(at, true), tail(tokens))),
            TokenKind::False => Ok((truth(at, false), tail(tokens))),
            TokenKind::OpenRound => self.enclosed(tail(tokens)),
            TokenKind::Mux => self.choice(at, tail(tokens)),
            TokenKind::Min => {
                let (a, b, rest) = self.pair(tail(tokens))?;
                Ok((min(self.parser.alloc, at, a, b)?, rest))
            }
            TokenKind::Max => {
                let (a, b, rest) = self.pair(tail(tokens))?;
                Ok((max(self.parser.alloc, at, a, b)?, rest))
            }
            _ => self.named(tokens),
        }
    }
}

/// An expression whose operators, outside of brackets, are of the level or tighter. With as many as there are
/// tokens, `depth` is never reached.
#[tactic(auto, unfolding(crate::specs::ExpressionRules::expr))]
pub fn expr<'t>(
    parser: Parser<'_>,
    depth: usize,
    level: u8,
    tokens: &'t [Token],
) -> Result<(SynExpr, &'t [Token]), Stop>
    ensures { Gives (λ x. (plain_expr x.0, x.1.now)) result (spec.expr parser.entry.source.now depth level tokens.now) }
{
    if depth == 0 {
        return Err(refuse(tokens));
    }
    Operands {
        parser,
        depth: depth - 1,
        expr,
    }
    .chain(level, tokens)
}
