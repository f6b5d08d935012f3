//! Runs `fmt`, which formats files in one style.

use crate::edits::{Editing, Edits, Mode, run_edits};
use bibkit_edits::edit::Edit;
use edit_format::style::Style;
use edit_orders::order::Order;
use std::alloc::{AllocError, Global};

// Returns the edits that format a file. If `sort` is an order, they sort its entries first.
fn edits_of<'a>(
    alloc: Global,
    style: Style<'a>,
    sort: Option<Order>,
) -> Result<Vec<Edit<'a>>, AllocError> {
    let mut edits = Vec::new(alloc);
    if let Some(order) = sort {
        edits.push(Edit::Sort { order })?;
    }
    edits.push(Edit::Format { style })?;
    Ok(edits)
}

// Formats a file, and returns the status. `is_last` says whether it is the last one.
fn format_file(
    rt: &HostRuntime,
    style: Style<'_>,
    sort: Option<Order>,
    mode: Mode,
    name: &str,
    is_last: bool,
) -> u8 {
    match edits_of(rt.alloc(), style, sort) {
        Ok(edits) => run_edits(
            rt,
            &Editing {
                edits: Edits::These(edits),
                name,
                mode,
                is_last,
            },
        ),
        Err(_) => {
            let _ = rt.eprintln("bibkit: out of memory");
            3
        }
    }
}

/// Formats each file in turn, and returns the greatest status. If `sort` is an order, sorts the entries of each file first.
pub fn run_format(
    rt: &HostRuntime,
    style: Style<'_>,
    sort: Option<Order>,
    mode: Mode,
    names: &[&str],
) -> u8 {
    let mut status = 0;
    'names: for (index, name) in names.iter().enumerate() {
        let is_last = index + 1 == names.len();
        status = format_file(rt, style, sort, mode, name, is_last).max(status);
    }
    status
}
