//! Laws of the hashes of a run's keys.
ghost use Rattle.std.specs.{Hash.FoldHasher.{finish, write}, Prelude.{◌-◌, ◌^◌, ◌≡◌, codes}};
ghost use Rattle.fc_collect.specs.Limits.{begun_with};

/// Another seed gives the same key another hash: the key of these three bytes has these numbers, by
/// the seeds 0, 1 and the greatest one.
pub fn another_seed_gives_another_hash()
    ensures zero { finish (write (begun_with 0) (codes "key")) ≡ 2252384052999000879 }
    ensures one { finish (write (begun_with 1) (codes "key")) ≡ 18366707305151963703 }
    ensures greatest { finish (write (begun_with (2 ^ 64 - 1)) (codes "key"))
        ≡ 3609818928988347880 }
{}
