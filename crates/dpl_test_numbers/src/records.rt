//! Worked records, written and read, and their faults.
use dpl_records::{Record, RecordFault, kinds, name_of, next_record, put_record, u16_at};
use std::alloc::{AllocError, Global};
use std::test::Fail;

/// The layer 7 and the name TOP, as records.
static BYTES: [u8; 14] = [0, 6, 0x0D, 2, 0, 7, 0, 8, 0x06, 6, b'T', b'O', b'P', 0];

/// The bytes of both, as they are written.
#[tactic(auto, unfolding(dpl_spec_format::specs::Table::form_of, dpl_spec_format::specs::Table::table))]
fn written(alloc: Global) -> Result<Vec<u8>, AllocError> {
    let mut out = Vec::new(alloc);
    put_record(&mut out, kinds::LAYER, &[0, 7])?;
    put_record(&mut out, kinds::STRNAME, b"TOP\0")?;
    Ok(out)
}

/// Whether the bytes begin with the layer 7.
fn begin_with_layer(bytes: &[u8]) -> bool {
    match next_record(bytes, 0) {
        Ok(layer) => {
            layer.kind == kinds::LAYER && layer.body.len() == 2 && u16_at(layer.body, 0) == 7
        }
        Err(_) => false,
    }
}

/// Whether the name TOP follows, up to the 14th byte.
fn go_on_with_name(bytes: &[u8]) -> bool {
    if bytes.len() < 6 {
        return false;
    }
    match next_record(bytes, 6) {
        Ok(strname) => name_of(strname.body) == b"TOP".as_slice() && strname.next == 14,
        Err(_) => false,
    }
}

#[test]
fn written_and_read(rt: HostRuntime) -> Result<(), Fail> {
    let out = written(rt.alloc())?;
    assert!(rt; out.as_slice() == BYTES.as_slice());
    assert!(rt; begin_with_layer(&out));
    assert!(rt; go_on_with_name(&out));
    Ok(())
}

/// Bytes, and why no record stands at their beginning.
static FAULTS: [(&[u8], RecordFault); 10] = [
    (&[0, 4, 0x11], RecordFault::Truncated { at: 0 }),
    (&[0, 5, 0x11], RecordFault::Truncated { at: 0 }),
    (&[0, 2, 0x11, 0], RecordFault::BadLength { at: 0 }),
    (&[0, 5, 0x11, 0], RecordFault::BadLength { at: 0 }),
    (&[0, 6, 0x11, 0], RecordFault::Truncated { at: 0 }),
    (&[0, 4, 0x14, 0], RecordFault::UnknownRecord { at: 0 }),
    (&[0, 4, 0x3C, 0], RecordFault::UnknownRecord { at: 0 }),
    (&[0, 4, 0x11, 1], RecordFault::BadDataType { at: 0 }),
    (&[0, 4, 0x0D, 2], RecordFault::BadSize { at: 0 }),
    (&[0, 4, 0x10, 3], RecordFault::BadSize { at: 0 }),
];

#[test]
fn faults(rt: HostRuntime) {
    for &(bytes, fault) in &FAULTS {
        assert!(rt; next_record(bytes, 0).err() == Some(fault));
    }
    let skipped = next_record(&[0, 4, 0x3B, 9], 0);
    assert!(rt;
        matches!(
            skipped,
            Ok(Record {
                next: 4,
                kind: 0x3B,
                ..
            })
        )
    );
}
