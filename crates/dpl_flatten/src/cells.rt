//! What one structure draws on a layer, and the copies of other structures that it places.

ghost use Rattle.std.specs.Prelude.{◌≡◌, ◌++◌, ◌<◌, ◌≤◌, ℕ, [], true, false, length, map, ◌∷◌, ◌^◌, List, Some, IfOk, OnOk};
ghost use Rattle.std.specs.List.{All};
ghost use Rattle.dpl_spec_split.specs.Loops.{IsRectilinear, ArePointsWithin, AreLoopsWithin};
ghost use Rattle.dpl_spec_elements.specs.Boundaries.{IsSlanted};
ghost use Rattle.dpl_spec_elements.specs.Paths.{corners_of, path_rects};
ghost use Rattle.dpl_spec_format.specs.Tree.{HasPoints, elements_at};
ghost use Rattle.dpl_syntax.specs.Elements.{body_seen, element_seen, IsSized};
ghost use Rattle.dpl_shapes.specs.declared.fault.ShapeFault.TheVariants.{NoMemory};
ghost use Rattle.dpl_spec_layout.specs.declared.ElementFault.{ElementFault};
ghost use Rattle.dpl_spec_layout.specs.Elements.{points_in, loops_of, IsPathFault, IsRefusedFor, reference_name};
ghost use Rattle.dpl_flatten.specs.Cells.{AreCopies, IsCopied, IsNoted, IsCell, AreCountedTargets, AreTaken, AreCells};
ghost use Rattle.dpl_reference.specs.Roles.{path_along};
ghost use Rattle.dpl_walk.specs.Cells.{IsReady};
ghost use Rattle.dpl_flatten.specs.Totals.{ceiling};
ghost use Rattle.dpl_links.specs.Graph.{IsMarked};

use crate::count::total_at;
use crate::links::target;
use crate::shapes::{points_of, rectangle_of};
use dpl_base::{Listed, Loop};
use dpl_corners::Figure;
use dpl_reference::{PathStyle, Role, array_copies, role_of, single_copy};
use dpl_shapes::{ShapeFault, path_loops};
use dpl_spec_layout::Layer;
use dpl_syntax::{Body, Element, Library};
use dpl_walk::{Cell, Copies, Outline};
use std::alloc::{AllocError, Global};

/// The fault of a shape that isn't refused: memory ran out.
fn out_of_memory(fault: ShapeFault) -> AllocError
    requires { fault ≡ NoMemory }
{
    match fault {
        ShapeFault::NoMemory => AllocError,
        _ => unreachable!(),
    }
}

/// The loop that a boundary or box draws. That of a rectangle needs no list of points.
fn figure_of(alloc: Global, xy: &[u8]) -> Result<Figure, AllocError>
    ensures points { IfOk result (λ f. f ≡ points_in xy.now) }
    ensures within { OnOk result (ArePointsWithin (2 ^ 31) (points_in xy.now)) }
{
    if let Some(figure) = rectangle_of(xy) {
        return Ok(figure);
    }
    let points = points_of(alloc, xy)?;
    Ok(Figure::of(Loop::of(points)))
}

/// Notes the loop that a boundary or box draws which isn't refused.
fn draw_boundary(
    alloc: Global,
    at: usize,
    xy: &[u8],
    outlines: &mut Vec<Outline>,
) -> Result<(), AllocError>
    requires { ¬ IsSlanted (points_in xy.now) }
    ensures outlines { OnOk result (outlines.new.items ≡ outlines.old.items ++ record { at = at; points = points_in xy.now } ∷ []) }
    ensures straight { OnOk result (All IsRectilinear (points_in xy.now ∷ [])) }
    ensures within { OnOk result (AreLoopsWithin (2 ^ 61) (points_in xy.now ∷ [])) }
{
    let points = figure_of(alloc, xy)?;
    outlines.push(Outline { at, points })?;
    Ok(())
}

/// The loops of a path that isn't refused.
fn path_outlines(alloc: Global, style: PathStyle, xy: &[u8]) -> Result<Vec<Loop>, AllocError>
    requires { (f : ElementFault) → ¬ IsPathFault (path_along style xy.now) f }
    ensures loops { IfOk result (λ v. v.items ≡ map corners_of (path_rects (path_along style xy.now))) }
    ensures straight { IfOk result (λ v. All IsRectilinear v.items) }
    ensures within { IfOk result (λ v. AreLoopsWithin (2 ^ 61) v.items) }
{
    let points = points_of(alloc, xy)?;
    match path_loops(
        alloc,
        points.as_slice(),
        style.width as i64,
        style.kind,
        style.begin_ext as i64,
        style.end_ext as i64,
    ) {
        Err(fault) => Err(out_of_memory(fault)),
        Ok(loops) => Ok(loops),
    }
}

/// Notes the loops that a path draws which isn't refused.
fn draw_path(
    alloc: Global,
    at: usize,
    style: PathStyle,
    xy: &[u8],
    outlines: &mut Vec<Outline>,
) -> Result<(), AllocError>
    requires { (f : ElementFault) → ¬ IsPathFault (path_along style xy.now) f }
    ensures outlines { OnOk result (outlines.new.items ≡ outlines.old.items ++ map (λ qs. record { at = at; points = qs }) (map corners_of (path_rects (path_along style xy.now)))) }
    ensures straight { OnOk result (All IsRectilinear (map corners_of (path_rects (path_along style xy.now)))) }
    ensures within { OnOk result (AreLoopsWithin (2 ^ 61) (map corners_of (path_rects (path_along style xy.now)))) }
{
    let loops = path_outlines(alloc, style, xy)?;
    for points in loops {
        outlines.push(Outline {
            at,
            points: Figure::of(points),
        })?;
    }
    Ok(())
}

/// Notes the loops that an element draws.
fn draw(
    alloc: Global,
    chosen: Layer,
    element: &Element<'_>,
    outlines: &mut Vec<Outline>,
) -> Result<(), AllocError>
    requires { (f : ElementFault) → ¬ IsRefusedFor chosen (body_seen element.now.body) f }
    ensures outlines { OnOk result (outlines.new.items ≡ outlines.old.items ++ map (λ qs. record { at = element.now.at; points = qs }) (loops_of chosen (body_seen element.now.body))) }
    ensures straight { OnOk result (All IsRectilinear (loops_of chosen (body_seen element.now.body))) }
    ensures within { OnOk result (AreLoopsWithin (2 ^ 61) (loops_of chosen (body_seen element.now.body))) }
{
    match role_of(chosen, &element.body) {
        Role::Boundary { xy } => draw_boundary(alloc, element.at, xy, outlines),
        Role::Path { style, xy } => draw_path(alloc, element.at, style, xy, outlines),
        _ => Ok(()),
    }
}

/// The copies that a reference to a structure places, which isn't refused.
fn copies_of(target: u32, chosen: Layer, body: &Body<'_>) -> Copies
    requires points { HasPoints (body_seen body.now) }
    requires reference { (name : List ℕ) × (reference_name (body_seen body.now) ≡ Some name) }
    requires taken { (f : ElementFault) → ¬ IsRefusedFor chosen (body_seen body.now) f }
    ensures copies { AreCopies (body_seen body.now) result }
    ensures ready { IsReady (2 ^ 31) result }
    ensures target { result.target ≡ target }
{
    match *body {
        Body::Sref { trans, xy, .. } => single_copy(target, trans, xy),
        Body::Aref {
            trans,
            columns,
            rows,
            xy,
            ..
        } => array_copies(target, trans, columns, rows, xy),
        _ => unreachable!(),
    }
}

/// Notes the copies that an element places, unless they draw nothing.
fn note_copies(
    lib: &Library<'_>,
    chosen: Layer,
    totals: &[u32],
    element: &Element<'_>,
    copies: &mut Vec<Copies>,
) -> Result<(), AllocError>
    requires sized { HasPoints (body_seen element.now.body) }
    requires taken { (f : ElementFault) → ¬ IsRefusedFor chosen (body_seen element.now.body) f }
    requires totals { All (λ n. n ≤ ceiling) totals.now }
    ensures { OnOk result (IsCopied lib.now totals.now (element_seen element.now) copies.old.items copies.new.items) }
{
    let found = target(lib, element);
    let Some(number) = found else {
        return Ok(());
    };
    if total_at(totals, number) == 0 {
        return Ok(());
    }
    copies.push(copies_of(number, chosen, &element.body))?;
    Ok(())
}

/// Notes what an element draws and places.
fn note_element(
    alloc: Global,
    lib: &Library<'_>,
    chosen: Layer,
    totals: &[u32],
    element: &Element<'_>,
    outlines: &mut Vec<Outline>,
    copies: &mut Vec<Copies>,
) -> Result<(), AllocError>
    requires sized { IsSized element.now }
    requires taken { (f : ElementFault) → ¬ IsRefusedFor chosen (body_seen element.now.body) f }
    requires totals { All (λ n. n ≤ ceiling) totals.now }
    ensures { OnOk result (IsNoted lib.now chosen totals.now (element_seen element.now) outlines.old.items outlines.new.items copies.old.items copies.new.items) }
{
    draw(alloc, chosen, element, outlines)?;
    note_copies(lib, chosen, totals, element, copies)?;
    Ok(())
}

/// What a structure draws and places. What places no point may be left out.
fn cell_of(
    alloc: Global,
    lib: &Library<'_>,
    chosen: Layer,
    totals: &[u32],
    structure: u32,
) -> Result<Cell, AllocError>
    requires known { structure < length lib.now.structures }
    requires totals { All (λ n. n ≤ ceiling) totals.now }
    requires bare { AreCountedTargets lib.now chosen totals.now (elements_at lib.now structure) }
    requires taken { AreTaken chosen (elements_at lib.now structure) }
    ensures { IfOk result (λ c. IsCell lib.now chosen (elements_at lib.now structure) c.outlines c.copies) }
{
    let mut outlines = Vec::new(alloc);
    let mut copies = Vec::new(alloc);
    for element in lib.elements(structure) {
        note_element(
            alloc,
            lib,
            chosen,
            totals,
            element,
            &mut outlines,
            &mut copies,
        )?;
    }
    Ok(Cell {
        outlines: Listed::of(outlines),
        copies: Listed::of(copies),
    })
}

/// What a structure draws and places, where it is marked.
fn cell_where(
    alloc: Global,
    lib: &Library<'_>,
    chosen: Layer,
    totals: &[u32],
    structure: u32,
    marked: bool,
) -> Result<Cell, AllocError>
    requires known { structure < length lib.now.structures }
    requires totals { All (λ n. n ≤ ceiling) totals.now }
    requires bare { marked ≡ true → AreCountedTargets lib.now chosen totals.now (elements_at lib.now structure) }
    requires taken { marked ≡ true → AreTaken chosen (elements_at lib.now structure) }
    ensures cell { IfOk result (λ c. marked ≡ true → IsCell lib.now chosen (elements_at lib.now structure) c.outlines c.copies) }
    ensures empty { IfOk result (λ c. marked ≡ false → (c.copies ≡ []) × (c.outlines ≡ [])) }
{
    if !marked {
        return Ok(Cell {
            outlines: Listed::of(Vec::new(alloc)),
            copies: Listed::of(Vec::new(alloc)),
        });
    }
    cell_of(alloc, lib, chosen, totals, structure)
}

/// What the marked structures draw and place.
pub(crate) fn make_cells(
    alloc: Global,
    lib: &Library<'_>,
    chosen: Layer,
    totals: &[u32],
    marks: &[bool],
) -> Result<Vec<Cell>, AllocError>
    requires marks { length marks.now ≡ length lib.now.structures }
    requires totals { All (λ n. n ≤ ceiling) totals.now }
    requires bare { (k : ℕ) → IsMarked marks.now k → AreCountedTargets lib.now chosen totals.now (elements_at lib.now k) }
    requires taken { (k : ℕ) → IsMarked marks.now k → AreTaken chosen (elements_at lib.now k) }
    ensures { IfOk result (λ v. AreCells lib.now chosen marks.now v.items) }
{
    let mut cells = Vec::new(alloc);
    for structure in 0..lib.count() {
        let cell = cell_where(
            alloc,
            lib,
            chosen,
            totals,
            structure,
            marks[structure as usize],
        )?;
        cells.push(cell)?;
    }
    Ok(cells)
}
