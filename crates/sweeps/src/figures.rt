ghost use Rattle.std.specs.Prelude.{◌≡◌};
ghost use Rattle.sweeps.specs.Figures.{Figures, worked_cells};

/// The cells of the worked plan, after forward from ones at steps 0 and 16. Its promise also holds the definitions to
/// what `Figures` lists of that plan: U and W of step 0, S of step 32, weights of steps 8 and 32, back at step 0, the inner
/// products of a sweep and of a row with its mirrored row, and refusals 7 and 8. No T is among them.
pub fn worked_cells() -> [i64; 4]
    ensures cells { result ≡ worked_cells }
    ensures figures { Figures }
{
    [19120, 19120, 19120, 19120]
}
