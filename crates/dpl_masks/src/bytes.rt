//! The bytes of a file of masks, by the GDSII Stream Format, Release 6.
ghost use Rattle.std.specs.Prelude.{◌≡◌, ◌++◌, IfOk, OnErr, OnOk};
ghost use Rattle.dpl_masks.specs.Bytes.{boundaries_bytes, boundary_bytes, file_bytes as file_bytes_of};

use dpl_base::Rect;
use std::alloc::{AllocError, Global};

/// How many bytes a slab takes.
const BOUNDARY_SIZE: usize = 64;

/// The records ENDSTR and ENDLIB.
const ENDSTR_ENDLIB: [u8; 8] = [0, 4, 7, 0, 0, 4, 4, 0];

/// A slab on a layer as one BOUNDARY of datatype 0: its corners go from the lower left one round to it again, of each its column first.
fn boundary(layer: u16, r: &Rect) -> [u8; BOUNDARY_SIZE]
    ensures { result ≡ boundary_bytes layer r.now }
{
    let [l, m] = layer.to_be_bytes();
    let [a, b, c, d] = r.x0.to_be_bytes();
    let [e, f, g, h] = r.y0.to_be_bytes();
    let [i, j, k, n] = r.x1.to_be_bytes();
    let [o, p, q, s] = r.y1.to_be_bytes();
    [
        0, 4, 8, 0, // BOUNDARY
        0, 6, 13, 2, l, m, // LAYER
        0, 6, 14, 2, 0, 0, // DATATYPE
        0, 44, 16, 3, // XY
        a, b, c, d, e, f, g, h, //
        i, j, k, n, e, f, g, h, //
        i, j, k, n, o, p, q, s, //
        a, b, c, d, o, p, q, s, //
        a, b, c, d, e, f, g, h, //
        0, 4, 17, 0, // ENDEL
    ]
}

/// Puts a slab on a layer as one BOUNDARY of datatype 0 behind `out`, 64 bytes. Without memory `out` stays as it was.
pub fn put_boundary(out: &mut Vec<u8>, layer: u16, r: &Rect) -> Result<(), AllocError>
    ensures ok { OnOk result (out.new.items ≡ out.old.items ++ boundary_bytes layer r.now) }
    ensures err { OnErr result (out.new.items ≡ out.old.items) }
{
    out.extend_from_slice(&boundary(layer, r))
}

/// Puts all slabs on a layer, each as one BOUNDARY, behind `out`.
fn put_boundaries(out: &mut Vec<u8>, layer: u16, slabs: &[Rect]) -> Result<(), AllocError>
    ensures { OnOk result (out.new.items ≡ out.old.items ++ boundaries_bytes layer slabs.now) }
{
    for slab in slabs {
        put_boundary(out, layer, slab)?;
    }
    Ok(())
}

/// The bytes of a file: the records before the elements, then the slabs of mask A on the layer `la` and those of mask B on the layer `lb`, each as one BOUNDARY of datatype 0.
pub fn file_bytes(
    alloc: Global,
    prefix: &[u8],
    a: &[Rect],
    b: &[Rect],
    la: u16,
    lb: u16,
) -> Result<Vec<u8>, AllocError>
    ensures { IfOk result (λ v. v.items ≡ file_bytes_of prefix.now la lb a.now b.now) }
{
    let mut out = Vec::from_slice(alloc, prefix)?;
    let slabs = a.len().saturating_add(b.len());
    out.reserve(
        slabs
            .saturating_mul(BOUNDARY_SIZE)
            .saturating_add(ENDSTR_ENDLIB.len()),
    )?;
    put_boundaries(&mut out, la, a)?;
    put_boundaries(&mut out, lb, b)?;
    out.extend_from_slice(&ENDSTR_ENDLIB)?;
    Ok(out)
}
