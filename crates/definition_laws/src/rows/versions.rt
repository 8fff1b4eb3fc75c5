//! Worked rows, each as the contract of a function that does nothing.
ghost use Rattle.std.specs.Prelude.{◌≡◌};
ghost use Rattle.definition_laws.specs.RowsOfVersions.{answered_across, answered_across_gives, equal_in_versions, equal_in_versions_give, narrow_deadlock, narrow_deadlock_gives, narrow_stale, narrow_stale_gives, tested_narrow, tested_narrow_gives, version_1_granted, version_1_granted_gives, version_3_lock, version_3_lock_gives};
ghost use Rattle.definition_laws.specs.ShortForms.{row};

/// A lock of version 3 stands in the way of version 4.
pub fn row_version_3_lock()
    ensures { row version_3_lock ≡ version_3_lock_gives }
{}

/// A holder behind the greatest offset of 4 bytes.
pub fn row_clamped_holder()
    ensures { row (tested_narrow 4294967296 1) ≡ tested_narrow_gives 4294967295 0 }
{}

/// A run whose last byte is the greatest offset shows the length 0.
pub fn row_holder_to_the_greatest()
    ensures { row (tested_narrow 0 4294967296) ≡ tested_narrow_gives 0 0 }
{}

/// And one that ends before it its own.
pub fn row_holder_before_the_greatest()
    ensures { row (tested_narrow 0 4294967295) ≡ tested_narrow_gives 0 4294967295 }
{}

/// As does a short one.
pub fn row_holder_within()
    ensures { row (tested_narrow 10 10) ≡ tested_narrow_gives 10 10 }
{}

/// A deadlock is a denial in version 3.
pub fn row_narrow_deadlock()
    ensures { row narrow_deadlock ≡ narrow_deadlock_gives }
{}

/// And so is a stale handle, of whoever asks; a TEST shows nobody.
pub fn row_narrow_stale()
    ensures { row narrow_stale ≡ narrow_stale_gives }
{}

/// A waiter of version 1 is told by GRANTED of version 1.
pub fn row_version_1_granted()
    ensures { row version_1_granted ≡ version_1_granted_gives }
{}

/// An equal waiter of another version leaves the first one's.
pub fn row_equal_in_versions()
    ensures { row equal_in_versions ≡ equal_in_versions_give }
{}

/// GRANTED_RES matches by cookie in any version.
pub fn row_answered_across()
    ensures { row answered_across ≡ answered_across_gives }
{}
