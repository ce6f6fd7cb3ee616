//! The operators of expressions.

ghost use Rattle.std.specs.Prelude.{◌≡◌, false, MatchOption};
ghost use Rattle.pipe_job.specs.Shape.{contains_text, unary_words, binary_words};
ghost use Rattle.pipe_job.specs.Spelling.{single, couple};
ghost use Rattle.pipe_job.specs.FormulaSpelling.{expr_spelling, ExprFits};
ghost use Rattle.pipe_job.specs.Operators.{unary_name, binary_name};

use pipe_expr::Expr;

/// An operator on one value.
#[derive(Clone, Copy)]
pub(crate) enum Unary {
    Not,
    IsNull,
    IsNotNull,
}

impl Unary {
    /// The operator of a name.
    pub(crate) fn named(name: &str) -> Option<Unary>
        ensures { MatchOption result (contains_text unary_words name.now ≡ false)
            (λ op. name.now ≡ unary_name op) }
    {
        match name {
            "not" => Some(Unary::Not),
            "is_null" => Some(Unary::IsNull),
            "is_not_null" => Some(Unary::IsNotNull),
            _ => None,
        }
    }

    /// The operator on an expression.
    pub(crate) fn on(self, inner: Box<Expr>) -> Expr
        ensures spelled { expr_spelling result ≡
            single (unary_name self) (expr_spelling inner.value) }
        ensures fits { ExprFits inner.value → ExprFits result }
    {
        match self {
            Unary::Not => Expr::Not(inner),
            Unary::IsNull => Expr::IsNull(inner),
            Unary::IsNotNull => Expr::IsNotNull(inner),
        }
    }
}

/// An operator on two values.
#[derive(Clone, Copy)]
pub(crate) enum Binary {
    Add,
    Sub,
    Mul,
    Eq,
    NotEq,
    Lt,
    LtEq,
    Gt,
    GtEq,
    And,
    Or,
}

impl Binary {
    /// The operator of a name.
    pub(crate) fn named(name: &str) -> Option<Binary>
        ensures { MatchOption result (contains_text binary_words name.now ≡ false)
            (λ op. name.now ≡ binary_name op) }
    {
        match name {
            "add" => Some(Binary::Add),
            "sub" => Some(Binary::Sub),
            "mul" => Some(Binary::Mul),
            "eq" => Some(Binary::Eq),
            "not_eq" => Some(Binary::NotEq),
            "lt" => Some(Binary::Lt),
            "lt_eq" => Some(Binary::LtEq),
            "gt" => Some(Binary::Gt),
            "gt_eq" => Some(Binary::GtEq),
            "and" => Some(Binary::And),
            "or" => Some(Binary::Or),
            _ => None,
        }
    }

    /// The operator on two expressions.
    pub(crate) fn on(self, left: Box<Expr>, right: Box<Expr>) -> Expr
        ensures spelled { expr_spelling result ≡
            single (binary_name self)
            (couple (expr_spelling left.value) (expr_spelling right.value)) }
        ensures fits { ExprFits left.value → ExprFits right.value → ExprFits result }
    {
        match self {
            Binary::Add => Expr::Add(left, right),
            Binary::Sub => Expr::Sub(left, right),
            Binary::Mul => Expr::Mul(left, right),
            Binary::Eq => Expr::Eq(left, right),
            Binary::NotEq => Expr::NotEq(left, right),
            Binary::Lt => Expr::Lt(left, right),
            Binary::LtEq => Expr::LtEq(left, right),
            Binary::Gt => Expr::Gt(left, right),
            Binary::GtEq => Expr::GtEq(left, right),
            Binary::And => Expr::And(left, right),
            Binary::Or => Expr::Or(left, right),
        }
    }
}
