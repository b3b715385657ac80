//! Puts together all pixels of a template (T.88, 6.2.5.3), bit 0 of a context first, from the
//! pixels that lie side by side and the adaptive ones.
ghost use Rattle.std.specs.Prelude.{◌≡◌, ◌+◌, ◌≤◌, ◌<◌, ◌≤ℤ◌, ◌++◌, [], ◌∷◌, false, length, negsuc, pos};
ghost use Rattle.jbig2_region.specs.Templates.{template_pixels};
ghost use Rattle.jbig2_region.specs.inner.PixelArrays.{four_pixels};
ghost use Rattle.jbig2_region.specs.inner.Neighbours.{IsMixed, mixed_pixels, side_by_side};

use crate::template::layouts::{Adaptives, adaptives_of, fixed_neighbours};
use crate::template::neighbours::Neighbours;
use crate::template::{AdaptiveTemplatePixel, Template, pixel};
use std::marker::Model;

/// The most pixels that a template has.
const MOST: usize = 16;

/// Pixels of a template, at most sixteen.
#[derive(Drop)]
pub struct TemplatePixels {
    places: [AdaptiveTemplatePixel; MOST],
    count: usize,
}

impl Model for TemplatePixels {
    ghost use Rattle.std.specs.Prelude.{◌≤◌, List, take};
    ghost use Rattle.jbig2_region.specs.declared.template.AdaptiveTemplatePixel.{AdaptiveTemplatePixel};

    ghost Value = { List AdaptiveTemplatePixel };

    ghost view = { λ p. take p.count p.places };

    ghost invariant = { λ p. p.count ≤ 16 };
}

impl TemplatePixels {
    /// The pixels of a template that is not extended, with these adaptive pixels.
    #[tactic(auto, using(crate::proofs::UsedPixels::same_pixels))]
    pub fn regular(template: Template, a: &[AdaptiveTemplatePixel; 4]) -> TemplatePixels
        ensures { result ≡ template_pixels false template (four_pixels template a.now) }
    {
        TemplatePixels::from_neighbours(fixed_neighbours(template), &adaptives_of(template, a))
    }

    fn from_neighbours(neighbours: Neighbours, adaptive: &Adaptives<'_>) -> TemplatePixels
        requires { IsMixed neighbours adaptive.now }
        ensures { result ≡ mixed_pixels neighbours adaptive.now }
    {
        let mut pixels = TemplatePixels::new();
        pixels.push_row(-1, 0, neighbours.left);
        pixels.push_all(adaptive.first);
        pixels.push_row(neighbours.above.reach as i16, 1, neighbours.above.count);
        pixels.push_all(adaptive.middle);
        pixels.push_row(neighbours.top.reach as i16, 2, neighbours.top.count);
        pixels.push_all(adaptive.last);
        pixels
    }

    fn new() -> TemplatePixels
        ensures { result ≡ [] }
    {
        TemplatePixels {
            places: [pixel(0, 0); MOST],
            count: 0,
        }
    }

    fn push(&mut self, place: AdaptiveTemplatePixel)
        requires { length self.old < 16 }
        ensures { self.new ≡ self.old ++ place ∷ [] }
    {
        self.places[self.count] = place;
        self.count += 1;
    }

    /// Adds `count` pixels side by side, `rows` rows up, from this column to the left.
    fn push_row(&mut self, column: i16, rows: u16, count: u32)
        requires left { negsuc 0 ≤ℤ column }
        requires right { column ≤ℤ pos 3 }
        requires near { rows ≤ 2 }
        requires few { count ≤ 7 }
        requires room { length self.old + count ≤ 16 }
        ensures value { self.new ≡ self.old ++ side_by_side column rows count }
        ensures counted { length self.new ≡ length self.old + count }
    {
        for index in 0..count {
            self.push(pixel(column - index as i16, -(rows as i16)));
        }
    }

    fn push_all(&mut self, places: &[AdaptiveTemplatePixel])
        requires { length self.old + length places.now ≤ 16 }
        ensures value { self.new ≡ self.old ++ places.now }
        ensures counted { length self.new ≡ length self.old + length places.now }
    {
        for place in places {
            self.push(*place);
        }
    }

    pub fn as_slice(&self) -> &[AdaptiveTemplatePixel]
        ensures { result.now ≡ self.now }
    {
        &self.places[..self.count]
    }
}
