// The figures of the small market. The function's promise is that they stand; it answers nothing.
ghost use Rattle.figures.specs.Figures.{Figures};

// What each file is answered, and its figures.
pub fn figures_stand()
    ensures { Figures }
{}
