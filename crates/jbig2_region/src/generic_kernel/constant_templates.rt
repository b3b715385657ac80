//! Calls in which the places of a template's pixels are constants.

/// One call for each template with nominal adaptive pixels, by its number. In it the places of the
/// template's pixels are constants.
macro_rules! by_template {
    ($neighbours:expr, $call:ident($($given:expr),*)) => {
        if $neighbours == nominal_neighbours(Template::Template0) {
            $call::<_, _, 0>($($given),*);
            return;
        }
        if $neighbours == nominal_neighbours(Template::Template1) {
            $call::<_, _, 1>($($given),*);
            return;
        }
        if $neighbours == nominal_neighbours(Template::Template2) {
            $call::<_, _, 2>($($given),*);
            return;
        }
        if $neighbours == nominal_neighbours(Template::Template3) {
            $call::<_, _, 3>($($given),*);
            return;
        }
    };
}

pub(crate) use by_template;
