//! Canonical texts that are read, and texts that aren't.
use crate::read::read_spelled;
use crate::{read_component, spelling_laws, write_component};
use std::alloc::{AllocError, Global};
use std::test::Fail;

/// SHA-512 of `D1;s0;1;2;tb0;0;tb0;0;`, by coreutils.
const POINT: &str =
    "d2c692eb9528f2d6e72bf6e44141694b616ce90cf4e9cba873dd51d640d002b639411de2d60b054a00d78d3c14ca3ce2ba67cacb2a3daae41c13374ef0f04ddd";

/// Whether a text is read, and the text of what is read is that text.
fn is_read(alloc: Global, text: &[u8]) -> Result<bool, Fail> {
    match read_spelled(alloc, text)? {
        None => Ok(false),
        Some(component) => Ok(write_component(alloc, &component)?.as_slice() == text),
    }
}

/// `T1;-`, so many times `l`, and the unit.
fn nested(alloc: Global, lambdas: usize) -> Result<Vec<u8>, AllocError> {
    let mut text = Vec::from_slice(alloc, b"T1;-")?;
    for _ in 0..lambdas {
        text.push(b'l')?;
    }
    text.push(b'e')?;
    Ok(text)
}

/// A declaration with a constructor of so many fields.
fn fields(alloc: Global, count: usize) -> Result<Vec<u8>, Fail> {
    let head = format!(in alloc; "D1;s0;1;{count};")?;
    let mut text = Vec::from_slice(alloc, head.as_bytes())?;
    for _ in 0..count {
        text.push(b'e')?;
    }
    Ok(text)
}

#[test]
fn reads_what_is_written(rt: HostRuntime) -> Result<(), Fail> {
    let alloc = rt.alloc();
    for text in [
        "T1;-n5;",
        "T1;-lv0;",
        "T1;:qav0;v0;lv0;",
        "T1;-laarb16;v0;v0;",
        "D1;s0;2;0;1;tb0;0;",
        "T2;:atb0;0;tb2;0;lfaarb22;v0;n0;yam1;aarb20;v0;n1;:atb0;0;tb2;0;lfaarb22;v0;n0;zam0;aarb20;v0;n1;",
        "T1;-n18446744073709551615;",
        "T1;-i-9223372036854775808;",
        "T1;-i+0;",
        "T1;-x2;é",
        "T1;-c1114111;",
        "T1;:qv0;d:v0;v0;v0;",
        "T1;-wsytb2;0;ozy",
        "T1;-p2;ep2;ee",
        "T1;-jx0;2;@p2;v<g1;_e|v1;v1;c0;-g0;",
        "D2;u3;A.b2;1;2;v0;tm1;1;qv2;s0;1;0;",
    ] {
        assert!(rt; is_read(alloc, text.as_bytes())?, "{text}");
    }
    let point = format!(in alloc; "T1;:ath{POINT}0;0;tb0;0;ljv0;1;k{POINT}0;0;2;v_-v0;")?;
    assert!(rt; is_read(alloc, point.as_bytes())?);
    let links = format!(in alloc; "T1;-arh{POINT}0;k{POINT}0;0;")?;
    assert!(rt; is_read(alloc, links.as_bytes())?);
    assert!(rt; is_read(alloc, nested(alloc, 511)?.as_slice())?);
    assert!(rt; is_read(alloc, fields(alloc, 511)?.as_slice())?);
    spelling_laws();
    Ok(())
}

#[test]
fn reads_nothing_else(rt: HostRuntime) -> Result<(), Fail> {
    let alloc = rt.alloc();
    for text in [
        "",
        "T0;",
        "T1;-n05;",
        "T1;-n;",
        "T1;-n5",
        "T1;-n5;e",
        "T1;-n18446744073709551616;",
        "T1;-i-0;",
        "T1;-i+9223372036854775808;",
        "T1;-x1;é",
        "T1;-x2;a",
        "T1;-c55296;",
        "T1;-v0;",
        "T1;-lv1;",
        "T1;:v0;e",
        "T1;-d:v0;v0;v0;",
        "T1;-m1;",
        "T1;-rb65536;",
        "T1;:tm0;0;e",
        "T1;-p1;e",
        "T1;:p1;ee",
        "T1;-je0;",
        "T1;-je1;p1;_-e",
        "T1;-je1;k_-e",
        "D1;s0;0;",
        "D1;s0;1;1;tm1;0;",
        "D1;s0;1;1;v0;",
        "D1;u1;+0;1;0;",
        "D1;u4;if.a0;1;0;",
        "D1;s4294967295;1;0;",
    ] {
        assert!(rt; read_spelled(alloc, text.as_bytes())?.is_none(), "{text}");
    }
    let upper = POINT.to_ascii_uppercase(alloc)?;
    let link = format!(in alloc; "T1;-rh{upper}0;")?;
    assert!(rt; read_spelled(alloc, link.as_bytes())?.is_none());
    assert!(rt; read_spelled(alloc, nested(alloc, 512)?.as_slice())?.is_none());
    assert!(rt; read_spelled(alloc, nested(alloc, 1_000_000)?.as_slice())?.is_none());
    assert!(rt; read_spelled(alloc, fields(alloc, 512)?.as_slice())?.is_none());
    Ok(())
}

#[test]
fn reads_canonical_texts(rt: HostRuntime) -> Result<(), Fail> {
    let alloc = rt.alloc();
    for text in [
        "T1;-n5;",
        "T1;-lv0;",
        "T1;:qav0;v0;lv0;",
        "T1;-laarb16;v0;v0;",
        "D1;s0;2;0;1;tb0;0;",
        "T2;:atb0;0;tb2;0;lfaarb22;v0;n0;yam1;aarb20;v0;n1;:atb0;0;tb2;0;lfaarb22;v0;n0;zam0;aarb20;v0;n1;",
    ] {
        let Some(component) = read_component(alloc, text.as_bytes())? else {
            panic!(rt; "{text}");
        };
        let written = write_component(alloc, &component)?;
        assert_eq!(rt; written.as_slice(), text.as_bytes(), "{text}");
    }
    for text in [
        "T1;-n05;",
        "T2;-n1;-n2;",
        "T2;:atb0;0;tb2;0;lfaarb22;v0;n0;zam1;aarb20;v0;n1;:atb0;0;tb2;0;lfaarb22;v0;n0;yam0;aarb20;v0;n1;",
    ] {
        assert!(rt; read_component(alloc, text.as_bytes())?.is_none(), "{text}");
    }
    Ok(())
}
