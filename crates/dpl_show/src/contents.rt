//! What is said of what a file holds: lines, or JSON.
use crate::json::{Refusal, line_of};
use dpl_view::{Contents, LayerCounts, Placed, Top};
use serde::{Described, Serialize, Serializer};
use std::alloc::{AllocError, Global};
use std::fmt::Write;

/// The points of the layer of this number, if they are told.
fn points_at(placed: &Placed, number: usize) -> Option<u32> {
    match placed {
        Placed::Points(points) => points.get(number).copied(),
        Placed::Unplaced { .. } => None,
    }
}

/// The lines of what a file holds: `units U M`, a database unit in user units and in metres; `structures S`; `top NAME` for each structure that no reference names; for each layer and datatype `layer L datatype D boundaries B paths P boxes B texts T nodes N points C`, where `-` stands for points that aren't told; and where they aren't a last line `points no NAME AT`, with the fault for which `dpl` would refuse each layer.
pub fn content_lines(alloc: Global, contents: &Contents) -> Result<String, AllocError> {
    let (user, metres) = contents.units;
    let mut text = String::new(alloc);
    write!(
        text,
        "units {user} {metres}\nstructures {}\n",
        contents.structures
    )?;
    for top in &contents.tops {
        put_top(&mut text, top)?;
    }
    for (number, entry) in contents.layers.iter().enumerate() {
        put_layer(&mut text, entry, points_at(&contents.placed, number))?;
    }
    if let Placed::Unplaced { name, at } = &contents.placed {
        write!(text, "points no {name} {at}\n")?;
    }
    Ok(text)
}

/// Adds the line of a structure that no reference names.
fn put_top(text: &mut String, top: &Top) -> Result<(), AllocError> {
    write!(text, "top {}\n", top.name)
}

/// Adds the line of a layer.
fn put_layer(
    text: &mut String,
    entry: &LayerCounts,
    points: Option<u32>,
) -> Result<(), AllocError> {
    let (layer, datatype, c) = (entry.layer.layer, entry.layer.datatype, &entry.counts);
    write!(
        text,
        "layer {layer} datatype {datatype} boundaries {} paths {} boxes {} texts {} nodes {} points ",
        c.boundaries, c.paths, c.boxes, c.texts, c.nodes
    )?;
    match points {
        Some(points) => write!(text, "{points}\n"),
        None => text.push_str("-\n"),
    }
}

/// What a file holds as a JSON text of one line.
pub fn content_json(alloc: Global, contents: &Contents) -> Result<String, AllocError> {
    let (user, metres) = contents.units;
    let unplaced = match &contents.placed {
        Placed::Points(_) => None,
        Placed::Unplaced { name, at } => Some(Refusal::of(*name, *at)),
    };
    let all = Held {
        layers: LayerList(contents),
        structures: contents.structures,
        tops: TopList(contents.tops.as_slice()),
        units: Units { metres, user },
        unplaced,
    };
    line_of(alloc, &all)
}

/// What a file holds, as JSON has it.
#[derive(Clone, Copy, Serialize)]
struct Held<'a> {
    layers: LayerList<'a>,
    structures: u32,
    tops: TopList<'a>,
    units: Units,
    unplaced: Option<Refusal>,
}

/// A database unit in metres and in user units, as JSON has it.
#[derive(Clone, Copy, Serialize)]
struct Units {
    metres: f64,
    user: f64,
}

/// A layer, as JSON has it.
#[derive(Clone, Copy, Serialize)]
struct LayerHeld {
    boundaries: u64,
    boxes: u64,
    datatype: u16,
    layer: u16,
    nodes: u64,
    paths: u64,
    points: Option<u32>,
    texts: u64,
}

impl LayerHeld {
    fn of(entry: &LayerCounts, points: Option<u32>) -> LayerHeld {
        LayerHeld {
            boundaries: entry.counts.boundaries,
            boxes: entry.counts.boxes,
            datatype: entry.layer.datatype,
            layer: entry.layer.layer,
            nodes: entry.counts.nodes,
            paths: entry.counts.paths,
            points,
            texts: entry.counts.texts,
        }
    }
}

/// What a file holds, of whose layers JSON has a list.
#[derive(Clone, Copy)]
struct LayerList<'a>(&'a Contents);

/// Structures, of whose names JSON has a list.
#[derive(Clone, Copy)]
struct TopList<'a>(&'a [Top]);

impl Described for LayerList<'_> {}

impl Serialize for LayerList<'_> {
    fn serialize<S: Serializer>(&self, out: &mut S) -> Result<(), S::Error> {
        out.begin_seq(Some(self.0.layers.len()))?;
        for (number, entry) in self.0.layers.iter().enumerate() {
            LayerHeld::of(entry, points_at(&self.0.placed, number)).serialize(out)?;
        }
        out.end_seq()
    }
}

impl Described for TopList<'_> {}

impl Serialize for TopList<'_> {
    fn serialize<S: Serializer>(&self, out: &mut S) -> Result<(), S::Error> {
        out.begin_seq(Some(self.0.len()))?;
        for top in self.0 {
            top.name.serialize(out)?;
        }
        out.end_seq()
    }
}
