//! Lists of big values. They are of any kind here, since to take a big value apart is dear to prove.
use std::alloc::AllocError;

/// Adds what was made.
pub fn push_made<T: Drop>(
    list: &mut Vec<T>,
    made: Result<T, AllocError>,
) -> Result<(), AllocError> {
    list.push(made?)?;
    Ok(())
}

/// Adds what there is.
pub fn push_some<T: Drop>(list: &mut Vec<T>, item: Option<T>) -> Result<(), AllocError> {
    if let Some(item) = item {
        list.push(item)?;
    }
    Ok(())
}

/// Puts what was made there.
pub fn put_made<T: Drop>(
    place: &mut Option<T>,
    made: Result<T, AllocError>,
) -> Result<(), AllocError> {
    *place = Some(made?);
    Ok(())
}
