//! Nodes by number.

ghost use Rattle.std.specs.Prelude.{◌≡◌, ◌≤◌, ◌+◌, ◌^◌, Some, None, IfSome, IfNone};
ghost use Rattle.sp_core.specs.Declarations.{is_stream};
ghost use Rattle.sp_core.specs.Numbering.{node_count, number_count};
ghost use Rattle.sp_core.specs.Plain.{plain_node};
ghost use Rattle.sp_plan.specs.Nodes.{site_at};
ghost use Rattle.sp_plan.specs.Sites.{plain_site};

use crate::size::{count_nodes, count_numbers, counters_size};
use sp_core::Node;
use sp_words::Style;

/// A node, with the number of its first operation, and whether it is a stage of a `Stream` block.
#[derive(Clone, Copy, Debug)]
pub struct Site<'a> {
    pub number: u32,
    pub streamed: bool,
    pub node: &'a Node,
}

/// Whether the stages of a body of this style are joined by FIFOs.
pub fn is_stream(style: Style) -> bool
    ensures { result ≡ is_stream style }
{
    match style {
        Style::Stream => true,
        _ => false,
    }
}

/// The node of a number, in preorder from this one on, whose first operation has a number.
pub fn site_at<'a>(wanted: u32, number: u32, streamed: bool, node: &'a Node) -> Option<Site<'a>>
    requires nodes { node_count (plain_node node.now) ≤ 2 ^ 30 }
    requires numbers { number + number_count (plain_node node.now) ≤ 2 ^ 30 }
    ensures { plain_site result ≡ site_at wanted number streamed (plain_node node.now) }
{
    if wanted == 0 {
        return Some(Site {
            number,
            streamed,
            node,
        });
    }
    match node {
        Node::Outer {
            counters,
            style,
            stages,
            ..
        } => {
            let mut left = wanted - 1;
            let mut next = number + counters_size(counters);
            for stage in stages {
                let count = count_nodes(&stage.node);
                if left < count {
                    return site_at(left, next, is_stream(*style), &stage.node);
                }
                left -= count;
                next += count_numbers(&stage.node);
            }
            None
        }
        Node::Fsm {
            start,
            test,
            body,
            ..
        } => {
            let before = (start.len() + test.len()) as u32;
            site_at(wanted - 1, number + before, false, body)
        }
        Node::Branch { test, yes, no } => {
            let left = wanted - 1;
            let next = number + test.len() as u32;
            let count = count_nodes(yes);
            if left < count {
                site_at(left, next, false, yes)
            } else {
                site_at(left - count, next + count_numbers(yes), false, no)
            }
        }
        _ => None,
    }
}
