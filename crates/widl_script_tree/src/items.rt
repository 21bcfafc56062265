//! Items: the nodes of rows.

ghost use Rattle.std.specs.Prelude.{◌≡◌, ◌++◌, map, OnErr, OnOk};
ghost use Rattle.widl_script_tree.specs.declared.expression.Expression.TheVariants as node;
ghost use Rattle.widl_script_tree.specs.declared.statement.Statement.TheVariants as line;

use crate::expression::Expression;
use crate::statement::Statement;
use std::alloc::AllocError;

/// Puts an item for each place after the nodes.
///
/// # Errors
///
/// `AllocError` where there is no memory; the nodes are unchanged.
pub(crate) fn put_items(nodes: &mut Vec<Expression>, places: &[u32]) -> Result<(), AllocError>
    ensures ok { OnOk result (nodes.new.items ≡ nodes.old.items ++ map (λ place. node.Item place) places.now) }
    ensures err { OnErr result (nodes.new.items ≡ nodes.old.items) }
{
    let first = nodes.len();
    'row: for place in places {
        if let Err(_) = nodes.push(Expression::Item(*place)) {
            nodes.truncate(first);
            return Err(AllocError);
        }
    }
    Ok(())
}

/// Puts an item for each place after the nodes.
///
/// # Errors
///
/// `AllocError` where there is no memory; the nodes are unchanged.
pub(crate) fn put_statement_items(
    nodes: &mut Vec<Statement>,
    places: &[u32],
) -> Result<(), AllocError>
    ensures ok { OnOk result (nodes.new.items ≡ nodes.old.items ++ map (λ place. line.Item place) places.now) }
    ensures err { OnErr result (nodes.new.items ≡ nodes.old.items) }
{
    let first = nodes.len();
    'row: for place in places {
        if let Err(_) = nodes.push(Statement::Item(*place)) {
            nodes.truncate(first);
            return Err(AllocError);
        }
    }
    Ok(())
}
