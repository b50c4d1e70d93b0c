use crate::declared::declared;
use cc_base::Place;
use cc_faults::{FaultAt, Least, TypeKind};
use std::alloc::Global;
use std::rt::HostRuntime;
use std::test::Fail;

/// The first fault of the declarations of a text.
fn first(alloc: Global, text: &[u8]) -> Result<Least, Fail> {
    let (_, least) = declared(alloc, text)?;
    Ok(least)
}

/// A fault in the first line.
fn at(column: u32, kind: TypeKind) -> Least {
    let place = Place { line: 1, column };
    Some(FaultAt { place, kind })
}

/// The cells of the last structure of a text.
fn cells(alloc: Global, text: &[u8]) -> Result<Option<u32>, Fail> {
    let (visible, _) = declared(alloc, text)?;
    Ok(visible.structures().last().map(|structure| structure.cells))
}

#[test]
fn a_length_is_1_to_65536(rt: HostRuntime) -> Result<(), Fail> {
    let alloc = rt.alloc();
    assert_eq!(rt;
        first(alloc, b"struct s { int a[0]; };")?,
        at(18, TypeKind::BadLength)
    );
    assert_eq!(rt; first(alloc, b"struct s { int a[1]; };")?, None);
    assert_eq!(rt; first(alloc, b"struct s { int a[65536]; };")?, None);
    assert_eq!(rt;
        first(alloc, b"struct s { int a[65537]; };")?,
        at(18, TypeKind::BadLength)
    );
    Ok(())
}

#[test]
fn a_structure_has_at_most_65536_cells(rt: HostRuntime) -> Result<(), Fail> {
    let alloc = rt.alloc();
    let most = b"struct s { int a[65535]; int b; };";
    assert_eq!(rt; first(alloc, most)?, None);
    assert_eq!(rt; cells(alloc, most)?, Some(65_536));
    let more = b"struct s { int a[65536]; int b; };";
    assert_eq!(rt; first(alloc, more)?, at(8, TypeKind::LargeType));
    Ok(())
}

#[test]
fn an_array_of_structures_has_at_most_65536_cells(rt: HostRuntime) -> Result<(), Fail> {
    let alloc = rt.alloc();
    let most = b"struct s { int a[2]; }; struct t { struct s b[32768]; };";
    assert_eq!(rt; first(alloc, most)?, None);
    assert_eq!(rt; cells(alloc, most)?, Some(65_536));
    let more = b"struct s { int a[2]; }; struct t { struct s b[32769]; };";
    assert_eq!(rt; first(alloc, more)?, at(45, TypeKind::LargeType));
    Ok(())
}

#[test]
fn parameters_have_at_most_256_cells(rt: HostRuntime) -> Result<(), Fail> {
    let alloc = rt.alloc();
    let one = b"struct s { int a[256]; }; f(struct s x) { }";
    assert_eq!(rt; first(alloc, one)?, None);
    let two = b"struct s { int a[256]; }; f(struct s x, int y) { }";
    assert_eq!(rt; first(alloc, two)?, at(27, TypeKind::ManyCells));
    let process = b"struct s { int a[128]; }; process spec p(struct s a, struct s b);";
    assert_eq!(rt; first(alloc, process)?, None);
    let large = b"struct s { int a[129]; }; process spec p(struct s a, struct s b);";
    assert_eq!(rt; first(alloc, large)?, at(40, TypeKind::ManyCells));
    Ok(())
}

#[test]
fn parameters_of_a_transaction_have_at_most_256_cells(rt: HostRuntime) -> Result<(), Fail> {
    let alloc = rt.alloc();
    let most = b"struct s { int a[256]; }; process spec p() { trans struct s t(struct s a); };";
    assert_eq!(rt; first(alloc, most)?, None);
    let more = b"struct s { int a[257]; }; process spec p() { trans struct s t(struct s a); };";
    assert_eq!(rt; first(alloc, more)?, at(61, TypeKind::ManyCells));
    Ok(())
}

#[test]
fn constants_are_ints(rt: HostRuntime) -> Result<(), Fail> {
    let alloc = rt.alloc();
    assert_eq!(rt; first(alloc, b"enum { A = 2147483646, B };")?, None);
    assert_eq!(rt;
        first(alloc, b"enum { A = 2147483647, B };")?,
        at(24, TypeKind::EnumRange)
    );
    assert_eq!(rt;
        first(alloc, b"enum { A = 2147483648 };")?,
        at(8, TypeKind::EnumRange)
    );
    assert_eq!(rt; first(alloc, b"enum { A = -2147483648, B };")?, None);
    assert_eq!(rt;
        first(alloc, b"enum { A = -2147483649 };")?,
        at(8, TypeKind::EnumRange)
    );
    Ok(())
}

#[test]
fn cells_of_structures_within_structures_are_counted(rt: HostRuntime) -> Result<(), Fail> {
    let alloc = rt.alloc();
    let text =
        b"struct a { int x[4]; }; struct b { struct a y[8]; int z; }; struct c { struct b p, q; };";
    assert_eq!(rt; first(alloc, text)?, None);
    assert_eq!(rt; cells(alloc, text)?, Some(66));
    Ok(())
}
