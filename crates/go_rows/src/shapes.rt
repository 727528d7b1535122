// Trees as text.
use crate::tokens::offset_text;
use go_tree::{Node, NodeKind};
use std::alloc::{AllocError, Global};

/// The nodes one behind the other, each in brackets by its kind, its text and its parts, a name by its text alone.
pub fn shapes(alloc: Global, nodes: &[Node]) -> Result<Vec<u8>, AllocError> {
    let mut out = Vec::new(alloc);
    put_parts(alloc, &mut out, nodes)?;
    line_without_first_blank(alloc, &out)
}

/// Each node before its parts, by its number and its place, with offsets from `from`.
pub fn spans(alloc: Global, nodes: &[Node], from: usize) -> Result<Vec<u8>, AllocError> {
    let mut out = Vec::new(alloc);
    put_spans(alloc, &mut out, nodes, from)?;
    line_without_first_blank(alloc, &out)
}

// The text behind the blank that it begins with, as a line.
fn line_without_first_blank(alloc: Global, out: &[u8]) -> Result<Vec<u8>, AllocError> {
    let mut line = out.strip_prefix(b" ").unwrap_or(out).to_vec(alloc)?;
    line.push(b'\n')?;
    Ok(line)
}

#[cycle(put)]
fn put(alloc: Global, out: &mut Vec<u8>, node: &Node) -> Result<(), AllocError> {
    if node.is(NodeKind::Name) {
        return out.extend_from_slice(node.text());
    }
    put_head(alloc, out, node)?;
    put_parts(alloc, out, node.parts())?;
    out.extend_from_slice(b")")
}

#[cycle(put)]
fn put_parts(alloc: Global, out: &mut Vec<u8>, parts: &[Node]) -> Result<(), AllocError> {
    for part in parts {
        out.extend_from_slice(b" ")?;
        put(alloc, out, part)?;
    }
    Ok(())
}

// The kind, and the text if there is one.
fn put_head(alloc: Global, out: &mut Vec<u8>, node: &Node) -> Result<(), AllocError> {
    let kind = node.kind();
    let name = format!(in alloc; "({kind:?}")?;
    out.extend_from_slice(name.as_bytes())?;
    if node.text().is_empty() {
        return Ok(());
    }
    out.extend_from_slice(b" ")?;
    out.extend_from_slice(node.text())
}

#[cycle(put_span)]
fn put_span(alloc: Global, out: &mut Vec<u8>, node: &Node, from: usize) -> Result<(), AllocError> {
    let id = node.id().0;
    let start = offset_text(alloc, node.start(), from)?;
    let end = offset_text(alloc, node.end(), from)?;
    out.extend_from_slice(format!(in alloc; " {id}:{start}-{end}")?.as_bytes())?;
    put_spans(alloc, out, node.parts(), from)
}

#[cycle(put_span)]
fn put_spans(
    alloc: Global,
    out: &mut Vec<u8>,
    nodes: &[Node],
    from: usize,
) -> Result<(), AllocError> {
    for node in nodes {
        put_span(alloc, out, node, from)?;
    }
    Ok(())
}
