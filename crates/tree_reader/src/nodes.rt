ghost use Rattle.std.specs.Prelude.{◌≡◌, IfOk};
ghost use Rattle.vert_tree.specs.Trees.{Choice, Greatest, Group, Least, Negative, Not, Pair, start};
ghost use Rattle.vert_tree.specs.Views.{view};

use crate::reader::Reader;
use std::alloc::AllocError;
use vert_base::Span;
use vert_tree::{BinOp, Expr, Node};

impl Reader {
    fn boxed(&self, expr: Expr) -> Result<Box<Expr>, AllocError>
        ensures { IfOk result (λ b. b.value ≡ expr) }
    {
        Ok(Box::new(self.alloc, expr)?)
    }

    pub(crate) fn make_negative(&self, span: Span, inner: Expr) -> Result<Expr, AllocError>
        ensures { IfOk result (λ e.
            view self.now.names.items e ≡ Negative span (view self.now.names.items inner)) }
    {
        Ok(Expr {
            span,
            node: Node::Neg(self.boxed(inner)?),
        })
    }

    pub(crate) fn make_not(&self, span: Span, inner: Expr) -> Result<Expr, AllocError>
        ensures { IfOk result (λ e.
            view self.now.names.items e ≡ Not span (view self.now.names.items inner)) }
    {
        Ok(Expr {
            span,
            node: Node::Not(self.boxed(inner)?),
        })
    }

    pub(crate) fn make_group(&self, span: Span, inner: Expr) -> Result<Expr, AllocError>
        ensures { IfOk result (λ e.
            view self.now.names.items e ≡ Group span (view self.now.names.items inner)) }
    {
        Ok(Expr {
            span,
            node: Node::Group(self.boxed(inner)?),
        })
    }

    pub(crate) fn make_least(&self, span: Span, left: Expr, right: Expr) -> Result<Expr, AllocError>
        ensures { IfOk result (λ e.
            view self.now.names.items e
            ≡ Least span (view self.now.names.items left) (view self.now.names.items right)) }
    {
        Ok(Expr {
            span,
            node: Node::Least(self.boxed(left)?, self.boxed(right)?),
        })
    }

    pub(crate) fn make_greatest(
        &self,
        span: Span,
        left: Expr,
        right: Expr,
    ) -> Result<Expr, AllocError>
        ensures { IfOk result (λ e.
            view self.now.names.items e
            ≡ Greatest span (view self.now.names.items left) (view self.now.names.items right)) }
    {
        Ok(Expr {
            span,
            node: Node::Greatest(self.boxed(left)?, self.boxed(right)?),
        })
    }

    /// An operator between its operands.
    pub(crate) fn make_pair(&self, op: BinOp, left: Expr, right: Expr) -> Result<Expr, AllocError>
        ensures { IfOk result (λ e.
            view self.now.names.items e
            ≡ Pair (start (view self.now.names.items left)) op (view self.now.names.items left)
            (view self.now.names.items right)) }
    {
        Ok(Expr {
            span: left.span,
            node: Node::Binary(op, self.boxed(left)?, self.boxed(right)?),
        })
    }

    /// A test with its two outcomes.
    pub(crate) fn make_choice(
        &self,
        test: Expr,
        held: Expr,
        otherwise: Expr,
    ) -> Result<Expr, AllocError>
        ensures { IfOk result (λ e.
            view self.now.names.items e
            ≡ Choice (start (view self.now.names.items test)) (view self.now.names.items test)
            (view self.now.names.items held) (view self.now.names.items otherwise)) }
    {
        let span = test.span;
        let node = Node::Cond(self.boxed(test)?, self.boxed(held)?, self.boxed(otherwise)?);
        Ok(Expr { span, node })
    }
}
