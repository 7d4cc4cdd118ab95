//! The number of values of a triplet.
ghost use Rattle.std.specs.Prelude.{◌≡◌, ◌≢◌, pos};
ghost use Rattle.array_meaning.specs.Sections as sections;
ghost use Rattle.well_typed.specs.Known as spec;

use section_algebra::triplet_count;
use typed_facts::Extent;

fn count_of(first: i32, last: i32, stride: i32) -> u64
    requires { stride ≢ pos 0 }
    ensures { result ≡ sections.triplet_count first last stride }
{
    triplet_count(i64::from(first), i64::from(last), i64::from(stride)).unsigned_abs()
}

/// The number of values of a triplet whose bounds and stride are known. A stride of 0 makes none known.
pub fn count_between(first: Option<i32>, last: Option<i32>, stride: Option<i32>) -> Extent
    ensures { result ≡ spec.count_between first last stride }
{
    let Some(first) = first else {
        return None;
    };
    let Some(last) = last else {
        return None;
    };
    let Some(stride) = stride else {
        return None;
    };
    if stride == 0 {
        None
    } else {
        Some(count_of(first, last, stride))
    }
}
